//! The first half of SHA-512, whole and in pieces, and the hashes that name things on the ledger.
ghost use Rattle.std.specs.Prelude.{◌≡◌, [], ◌++◌, List, take, ℕ};
ghost use Rattle.hk_base.specs.Hashes.{sha512half, tx_id, account_index, state_index, HasTaken};

use crate::{AccountId, Hash256};
use sha2::{Digest, Sha512};

const TRANSACTION_PREFIX: [u8; 4] = [0x54, 0x58, 0x4E, 0x00];

const ACCOUNT_PREFIX: [u8; 2] = [0x00, 0x61];

const STATE_PREFIX: [u8; 2] = [0x00, 0x76];

/// The first 32 bytes of SHA-512 (FIPS 180-4). It takes no memory.
pub fn sha512half(bytes: &[u8]) -> Hash256
    ensures hash { result ≡ sha512half bytes.now }
{
    let mut hash = HalfHash::new();
    hash.add(bytes);
    hash.finish()
}

/// The first half of SHA-512 over bytes that come in pieces. It takes no memory.
#[derive(Drop)]
pub struct HalfHash {
    hasher: Sha512,
}

impl HalfHash {
    /// A hash over no bytes so far.
    pub fn new() -> HalfHash
        ensures nothing { HasTaken result [] }
    {
        HalfHash {
            hasher: Sha512::new(),
        }
    }

    /// Takes the next piece.
    pub fn add(&mut self, bytes: &[u8])
        ensures joined { (taken : List ℕ) → HasTaken self.old taken → HasTaken self.new (taken ++ bytes.now) }
    {
        self.hasher.update(bytes);
    }

    /// The hash of the pieces joined.
    pub fn finish(self) -> Hash256
        ensures hash { (taken : List ℕ) → HasTaken self taken → result ≡ sha512half taken }
    {
        let HalfHash { hasher } = self;
        first_half(&hasher.finalize())
    }
}

// The first 32 of 64 bytes.
fn first_half(whole: &[u8; 64]) -> Hash256
    ensures front { result.0 ≡ take 32 whole.now }
{
    let mut half = [0; 32];
    half.copy_from_slice(&whole[..32]);
    Hash256(half)
}

/// The id of a transaction: the hash of the prefix `TXN` and a zero byte, and its blob. It takes no memory.
pub fn tx_id(blob: &[u8]) -> Hash256
    ensures hash { result ≡ tx_id blob.now }
{
    let mut hash = HalfHash::new();
    hash.add(&TRANSACTION_PREFIX);
    hash.add(blob);
    hash.finish()
}

/// The index of an account's entry. It takes no memory.
pub fn account_index(id: &AccountId) -> Hash256
    ensures hash { result ≡ account_index id.now }
{
    let mut hash = HalfHash::new();
    hash.add(&ACCOUNT_PREFIX);
    hash.add(&id.0);
    hash.finish()
}

/// The index of a hook's state entry, by its owner, key and namespace. It takes no memory.
pub fn state_index(id: &AccountId, key: &Hash256, namespace: &Hash256) -> Hash256
    ensures hash { result ≡ state_index id.now key.now namespace.now }
{
    let mut hash = HalfHash::new();
    hash.add(&STATE_PREFIX);
    hash.add(&id.0);
    hash.add(&key.0);
    hash.add(&namespace.0);
    hash.finish()
}
