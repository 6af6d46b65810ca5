//! Nonces and burdens.
ghost use Rattle.std.specs.Prelude.{◌≡◌, ◌++◌, ◌∷◌, [], if◌then◌else◌};
ghost use Rattle.hk_emit.specs.Numbers.{nonce, burden};

use hk_base::{AccountId, HalfHash, Hash256};

/// Before what a nonce is the hash of: `NCE` and a zero byte.
const NONCE_PREFIX: [u8; 4] = [0x4E, 0x43, 0x45, 0x00];

/// The nonce of a hook's execution with this number. Takes no memory.
pub fn nonce(
    parent: &Hash256,
    account: &AccountId,
    position: u8,
    callback: bool,
    counter: u8,
) -> Hash256
    ensures nonce { result ≡ nonce parent.now account.now position callback counter }
{
    let mut hash = HalfHash::new();
    hash.add(&NONCE_PREFIX);
    hash.add(&parent.0);
    hash.add(&account.0);
    hash.add(&[position, u8::from(callback), counter]);
    hash.finish()
}

/// The burden of an emission, or `None` where it passes 2^63 - 1. Takes no memory.
pub fn burden(parent: u64, reserved: u32) -> Option<u64>
    ensures burden { result ≡ burden parent reserved }
{
    let product = u128::from(parent) * u128::from(reserved);
    if product < 1 << 63 {
        Some(product as u64)
    } else {
        None
    }
}
