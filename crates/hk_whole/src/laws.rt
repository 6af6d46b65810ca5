//! Laws of whole replays.
ghost use Rattle.hk_whole.specs.Laws.{AccountsFor, BoundsCounts, TellsHistory};

use hk_chain::lines_bounded;
use hk_engine::{engines_careful, engines_lawful, stores_bounds};
use hk_final::queue_told;
use hk_state::Transactor;

/// The count on each `hook` and `callback` line is at most the bound on the line.
pub fn bounds_counts<T: Transactor>()
    ensures law { BoundsCounts T.rules }
{
    engines_lawful();
    engines_careful();
    stores_bounds();
    lines_bounded();
}

/// Each number of an `emit` line stands in one `emit` line alone, and in one line among `settled` and `final queued`.
/// It is settled in its time, with at most one callback, and what stays queued is told as it was emitted.
pub fn accounts_for_emissions<T: Transactor>()
    ensures law { AccountsFor T.rules }
{
    engines_lawful();
    queue_told();
}

/// The lines of an input lead from ledger to ledger, and what is printed between two of them tells of the event between
/// them: each transaction, and each settlement, is confined and whole or nothing.
pub fn tells_history<T: Transactor>()
    ensures law { TellsHistory T.rules }
{
    engines_lawful();
}
