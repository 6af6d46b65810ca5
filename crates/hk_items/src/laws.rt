ghost use Rattle.hk_items.specs.Needs.{CodesFit, TransactionsAreRight};

/// The law that the items of a transaction are at most ten, and that new code among them has version 0 or 1.
pub fn transactions_are_right()
    ensures law { TransactionsAreRight }
{}

/// The law that the fee for new code, in drops, is at most ten times as much as its transaction has bytes.
pub fn codes_fit()
    ensures law { CodesFit }
{}
