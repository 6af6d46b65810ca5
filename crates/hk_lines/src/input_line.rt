//! The lines that a file consists of.

use crate::Verdict;
use hk_base::{AccountId, Hash256, Items};

/// A line of input.
#[derive(Debug, Drop)]
pub enum InputLine {
    /// Opens an account with a balance in drops, at most 100,000,000,000,000,000, and a sequence from 1 to
    /// 4,294,967,294.
    Account {
        id: AccountId,
        balance: u64,
        sequence: u32,
    },
    /// Opens a ledger with a sequence from 1 to 4,294,967,000, a time in seconds, and the hash of the one before.
    Ledger {
        seq: u32,
        time: u32,
        last_hash: Hash256,
    },
    /// A transaction's bytes, at least one, with the verdict on its signature.
    Tx {
        verdict: Verdict,
        blob: Items<u8>,
    },
    /// The code of a hook, at least one byte.
    Hook {
        code: Items<u8>,
    },
    /// The end of the file.
    End,
}
