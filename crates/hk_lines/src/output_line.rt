//! The lines that the program prints for what happens on the ledger.

use crate::{ResultName, Settlement};
use hk_base::{AccountId, Hash256, Items, Outcome};

/// A printed line. Fees, balances and burnt fees are in drops.
#[derive(Debug, Drop)]
pub enum OutputLine {
    /// How a hook that was run alone ended, the instructions that ran, and the bound on them.
    Run {
        outcome: Outcome,
        count: u64,
        bound: u64,
    },
    /// A ledger was opened.
    Ledger {
        seq: u32,
    },
    /// The result and the fee of a transaction, which are numbered from 1.
    Tx {
        number: u64,
        result: ResultName,
        fee: u64,
    },
    /// The emission with this number left the queue; an expired one has no result.
    Settled {
        number: u64,
        word: Settlement,
        result: Option<ResultName>,
        fee: u64,
    },
    /// A hook of an account ran for a transaction.
    Hook {
        account: AccountId,
        position: u8,
        outcome: Outcome,
        count: u64,
        bound: u64,
    },
    /// A state entry was written, or removed where there is no value.
    State {
        account: AccountId,
        namespace: Hash256,
        key: Hash256,
        value: Option<Items<u8>>,
    },
    /// An emission with this number was queued for the ledgers from the first to the last.
    Emit {
        number: u64,
        first: u32,
        last: u32,
    },
    /// A hook was told of the end of its emission.
    Callback {
        account: AccountId,
        position: u8,
        outcome: Outcome,
        count: u64,
        bound: u64,
    },
    /// At the end, an account, with the numbers of its installed hooks and of its state entries.
    FinalAccount {
        id: AccountId,
        balance: u64,
        sequence: u32,
        hooks: u64,
        states: u64,
    },
    /// At the end, an installed hook, by the hash of its code.
    FinalInstall {
        account: AccountId,
        position: u8,
        hash: Hash256,
        namespace: Hash256,
    },
    /// At the end, a state entry.
    FinalState {
        account: AccountId,
        namespace: Hash256,
        key: Hash256,
        value: Items<u8>,
    },
    /// At the end, an emission that is still queued.
    FinalQueued {
        number: u64,
        first: u32,
        last: u32,
    },
    /// At the end, the sum of the balances and that of the burnt fees.
    FinalTotal {
        balances: u64,
        burnt: u64,
    },
    /// Nothing follows.
    Done,
}
