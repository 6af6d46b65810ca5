//! Laws of the definitions.
ghost use Rattle.hk_engine.specs.Laws.{CallsKeep, CompleteStores, EnginesCareful, EnginesLawful, EnginesMeasured};
ghost use Rattle.hk_engine.specs.Laws.{NeededFees, StoredFees};

use hk_bound::accepted_is_hook;
use hk_chain::{callbacks_fit, chains_fit};
use hk_events::{reserve_rests, transactions_fit};
use hk_items::codes_fit;
use hk_reading::{reads_one_way, transactions_found};

/// Chains, callbacks and fees keep what the laws of events ask of them, where the rules for transactions keep theirs.
pub fn engines_lawful()
    ensures law { EnginesLawful }
{
    chains_fit();
    callbacks_fit();
}

/// A complete ledger stores the bounds of its hooks. Then the fees of an account's hooks are numbers of 62 bits, and
/// the needed fee of a transaction is one of 63 bits.
pub fn stores_bounds()
    ensures complete { CompleteStores }
    ensures fees { StoredFees }
    ensures needed { NeededFees }
{
    accepted_is_hook();
    codes_fit();
}

/// Whatever a hook calls, State entries of 1 to 2,048 bytes stay so, no drop comes or goes, reserves stay within the
/// sum of drops, and numbers are left for all emissions.
pub fn calls_keep()
    ensures law { CallsKeep }
{}

/// State entries of 1 to 2,048 bytes stay so in chains and callbacks, and what is read as a transaction has items
/// within the limits of Installs.
pub fn engines_careful()
    ensures law { EnginesCareful }
{
    transactions_fit();
    reads_one_way();
    transactions_found();
}

/// Chains and callbacks keep reserves within the sum of drops, and leave numbers for all emissions.
pub fn engines_measured()
    ensures law { EnginesMeasured }
{
    reserve_rests();
}
