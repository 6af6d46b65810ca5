ghost use Rattle.wa_ops.specs.Bound.{FinerBound};

/// The law that no body has a greater bound in version 1 than in version 0.
pub fn finer_bound()
    ensures law { FinerBound }
{}
