//! Entries of the ledger.
ghost use Rattle.std.specs.Prelude.{◌≡◌, Some, IfOk};
ghost use Rattle.hk_state.specs.Holdings.{as_holding};

use hk_base::{AccountId, Hash256, Items, NoMemory};
use xo_object::{Grant, Parameter, copy_parameters};

/// An entry of the ledger, of the kind of its key.
#[derive(Debug, Drop)]
pub enum Entry {
    /// An account's balance in drops, and the sequence of its next transaction.
    Account {
        balance: u64,
        sequence: u32,
    },
    /// A hook that is installed: the hash of its code, its mask of transaction types, its namespace, parameters and
    /// grants.
    Install {
        hash: Hash256,
        on: Hash256,
        namespace: Hash256,
        parameters: Items<Parameter>,
        grants: Items<Grant>,
    },
    /// The code of hooks, its version, and the bounds of its exports.
    Definition {
        code: Items<u8>,
        version: u16,
        bound_hook: u64,
        bound_cbak: Option<u64>,
    },
    /// The bytes that a hook keeps.
    State(Items<u8>),
    /// A transaction that a hook of that hash emitted, the first and the last ledger that takes it, and the account to
    /// call back.
    Emitted {
        blob: Items<u8>,
        hash: Hash256,
        first: u32,
        last: u32,
        callback: Option<AccountId>,
    },
    /// The bytes of another kind of entry.
    Other(Items<u8>),
}

/// An account's balance in drops, and the sequence of its next transaction.
#[derive(Clone, Copy, Debug)]
pub struct Holding {
    pub balance: u64,
    pub sequence: u32,
}

impl Entry {
    /// An equal entry.
    pub fn copy(&self) -> Result<Entry, NoMemory>
        ensures same { IfOk result (λ copied. copied ≡ self.now) }
    {
        match self {
            Entry::Account { balance, sequence } => Ok(Entry::Account {
                balance: *balance,
                sequence: *sequence,
            }),
            Entry::Install {
                hash,
                on,
                namespace,
                parameters,
                grants,
            } => Ok(Entry::Install {
                hash: *hash,
                on: *on,
                namespace: *namespace,
                parameters: copy_parameters(parameters.allocator(), parameters.as_slice())?,
                grants: grants.copy()?,
            }),
            Entry::Definition {
                code,
                version,
                bound_hook,
                bound_cbak,
            } => Ok(Entry::Definition {
                code: code.copy()?,
                version: *version,
                bound_hook: *bound_hook,
                bound_cbak: *bound_cbak,
            }),
            Entry::State(bytes) => Ok(Entry::State(bytes.copy()?)),
            Entry::Emitted {
                blob,
                hash,
                first,
                last,
                callback,
            } => Ok(Entry::Emitted {
                blob: blob.copy()?,
                hash: *hash,
                first: *first,
                last: *last,
                callback: *callback,
            }),
            Entry::Other(bytes) => Ok(Entry::Other(bytes.copy()?)),
        }
    }

    /// An account's balance and sequence, and none of another kind of entry.
    pub fn holding(&self) -> Option<Holding>
        ensures holding { result ≡ as_holding (Some self.now) }
    {
        match self {
            Entry::Account { balance, sequence } => Some(Holding {
                balance: *balance,
                sequence: *sequence,
            }),
            _ => None,
        }
    }
}
