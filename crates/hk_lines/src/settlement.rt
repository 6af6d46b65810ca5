//! How an emission left the queue.
ghost use Rattle.std.specs.Prelude.{◌≡◌};
ghost use Rattle.hk_lines.specs.Names.{settlement_name};

/// How an emission was settled.
#[derive(Clone, Copy, Debug, PartialEq, Eq)]
pub enum Settlement {
    /// It was applied to the ledger, and its fee was taken.
    Applied,
    /// It was refused, and no fee was taken.
    Refused,
    /// Its last ledger had passed before its turn came.
    Expired,
}

impl Settlement {
    /// The name as it is printed.
    pub fn name(&self) -> &'static str
        ensures name { result.now ≡ settlement_name self.now }
    {
        match self {
            Settlement::Applied => "applied",
            Settlement::Refused => "refused",
            Settlement::Expired => "expired",
        }
    }
}
