//! What holds of the lines of every ledger.
ghost use Rattle.hk_final.specs.Counted.{CountsHooks, CountsStates, QueueTold};
ghost use Rattle.hk_final.specs.Plain.{PlainLines};
ghost use Rattle.hk_final.specs.Reserved.{FewByReserves, PaysForAll};

/// On a ledger without Installs, State entries and queued emissions the lines are those of its accounts, each with 0
/// hooks and 0 states, and the totals.
pub fn plain_lines()
    ensures law { PlainLines }
{}

/// The reserve of an account has a unit for each hook and each state that its line counts, and so these are few where
/// reserves are.
pub fn pays_for_all()
    ensures law { PaysForAll }
    ensures few { FewByReserves }
{}

/// As many `final install` lines are an account's, and as many `final state` lines, as its own line says.
pub fn counts_lines()
    ensures hooks { CountsHooks }
    ensures states { CountsStates }
{}

/// Each emission that waits has one `final queued` line, and no other number has one.
pub fn queue_told()
    ensures law { QueueTold }
{}
