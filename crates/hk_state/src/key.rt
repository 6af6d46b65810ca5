//! Keys of the ledger's entries.
ghost use Rattle.std.specs.Prelude.{◌≡◌};
ghost use Rattle.hk_state.specs.Keys.{key_cmp, as_key};

use hk_base::{AccountId, Hash256};
use std::cmp::Ordering;

/// A key of the ledger. Keys are ordered by their kinds as they are listed here, and then by their parts.
#[derive(Clone, Copy, Debug, PartialEq, Eq, PartialOrd, Ord, Hash)]
pub enum Key {
    /// An account.
    Account(AccountId),
    /// The hook of an account at a position.
    Install(AccountId, u8),
    /// The code of hooks, by its hash.
    Definition(Hash256),
    /// What hooks keep for an account, by the namespace and the key there.
    State(AccountId, Hash256, Hash256),
    /// An emission that is queued, by its number.
    Emitted(u64),
    /// An entry of a kind that the rules for transactions define for themselves.
    Other([u8; 60]),
}

impl Key {
    /// Which of two keys comes first.
    pub fn compare(&self, other: &Key) -> Ordering
        ensures order { result ≡ key_cmp self.now other.now }
    {
        self.cmp(other)
    }
}

/// The parts of a State entry's key.
#[derive(Clone, Copy, Debug, PartialEq, Eq)]
pub struct StateKey {
    pub owner: AccountId,
    pub namespace: Hash256,
    pub key: Hash256,
}

/// The key of these parts.
pub fn as_key(of: &StateKey) -> Key
    ensures key { result ≡ as_key of.now }
{
    Key::State(of.owner, of.namespace, of.key)
}
