//! What holds of every replay.
ghost use Rattle.hk_ledger.specs.Replays.{Conserves};

use hk_engine::engines_lawful;
use hk_state::Transactor;

/// No drop comes or goes in a replay: the balances and the burnt fees at the end add up to what accounts were opened
/// with.
pub fn conserves<T: Transactor>()
    ensures law { Conserves T.rules }
{
    engines_lawful();
}
