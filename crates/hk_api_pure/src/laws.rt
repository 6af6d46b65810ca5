ghost use Rattle.hk_api_pure.specs.Laws.{PureKeepsLength};

/// A call of a row from 3 to 26 keeps the memory's length.
pub fn pure_keeps_length()
    ensures law { PureKeepsLength }
{}
