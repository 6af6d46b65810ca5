//! The bytes of the demo's transactions.
ghost use Rattle.std.specs.Prelude.{◌≡◌, ◌≤◌, ◌++◌, length, IfOk, OnOk};
ghost use Rattle.std.specs.Int.{w64, to_be_bytes};
ghost use Rattle.hk_demo.specs.Blobs.{account_of, payment_blob, set_hook_blob};

use hk_base::{AccountId, Items, NoMemory};
use std::alloc::Global;

/// TransactionType 0, and the header of Sequence.
const PAYMENT: [u8; 4] = [0x12, 0x00, 0x00, 0x24];

/// A Fee of 1,000 drops, an empty SigningPubKey, and the header and length of Account.
const PAID_BY: [u8; 13] = [
    0x68, 0x40, 0x00, 0x00, 0x00, 0x00, 0x00, 0x03, 0xE8, 0x73, 0x00, 0x81, 0x14,
];

/// The header and length of Destination.
const PAID_TO: [u8; 2] = [0x83, 0x14];

/// TransactionType 22, Sequence 1, a Fee of 10,000 drops, an empty SigningPubKey, and the header and length of Account.
const SET_HOOK: [u8; 21] = [
    0x12, 0x00, 0x16, 0x24, 0x00, 0x00, 0x00, 0x01, 0x68, 0x40, 0x00, 0x00, 0x00, 0x00, 0x00, 0x27,
    0x10, 0x73, 0x00, 0x81, 0x14,
];

/// The headers of Hooks and Hook, version 0, HookOn for Payments alone, a namespace of zeros, and the header of
/// CreateCode.
const CREATED: [u8; 75] = [
    0xFB, 0xEE, 0x10, 0x14, 0x00, 0x00, 0x50, 0x14, 0xFF, 0xFF, 0xFF, 0xFF, 0xFF, 0xFF, 0xFF, 0xFF,
    0xFF, 0xFF, 0xFF, 0xFF, 0xFF, 0xFF, 0xFF, 0xFF, 0xFF, 0xFF, 0xFF, 0xFF, 0xFF, 0xFF, 0xFF, 0xFF,
    0xFF, 0xFF, 0xFF, 0xFF, 0xFF, 0xBF, 0xFF, 0xFE, 0x50, 0x20, 0x00, 0x00, 0x00, 0x00, 0x00, 0x00,
    0x00, 0x00, 0x00, 0x00, 0x00, 0x00, 0x00, 0x00, 0x00, 0x00, 0x00, 0x00, 0x00, 0x00, 0x00, 0x00,
    0x00, 0x00, 0x00, 0x00, 0x00, 0x00, 0x00, 0x00, 0x00, 0x00, 0x7B,
];

/// The end marks of a Hook and of Hooks.
const END_MARKS: [u8; 2] = [0xE1, 0xF1];

/// The bit of an amount of drops that isn't negative.
const POSITIVE: u64 = 0x4000_0000_0000_0000;

/// Account k, below 10.
pub(crate) fn account(k: u8) -> AccountId
    requires few { k ≤ 9 }
    ensures id { result ≡ account_of k }
{
    AccountId([k + 1; 20])
}

/// A Payment of drops from an account to another, with a fee of 1,000 drops.
pub(crate) fn payment(
    alloc: Global,
    sequence: u32,
    drops: u32,
    from: u8,
    to: u8,
) -> Result<Items<u8>, NoMemory>
    requires from { from ≤ 9 }
    requires to { to ≤ 9 }
    ensures blob { IfOk result (λ blob. blob ≡ payment_blob sequence drops from to) }
{
    let mut bytes = Vec::from_slice(alloc, &PAYMENT)?;
    bytes.extend_from_slice(&sequence.to_be_bytes())?;
    bytes.push(0x61)?;
    bytes.extend_from_slice(&(POSITIVE + drops as u64).to_be_bytes())?;
    bytes.extend_from_slice(&PAID_BY)?;
    bytes.extend_from_slice(&account(from).0)?;
    bytes.extend_from_slice(&PAID_TO)?;
    bytes.extend_from_slice(&account(to).0)?;
    Ok(Items::from_vec(bytes))
}

/// The SetHook by which an account creates a hook of a code of at most 192 bytes.
pub(crate) fn set_hook(alloc: Global, k: u8, code: &[u8]) -> Result<Items<u8>, NoMemory>
    requires few { k ≤ 9 }
    requires short { length code.now ≤ 192 }
    ensures blob { IfOk result (λ blob. blob ≡ set_hook_blob k code.now) }
{
    let mut bytes = Vec::from_slice(alloc, &SET_HOOK)?;
    bytes.extend_from_slice(&account(k).0)?;
    bytes.extend_from_slice(&CREATED)?;
    bytes.push(code.len() as u8)?;
    bytes.extend_from_slice(code)?;
    bytes.extend_from_slice(&END_MARKS)?;
    Ok(Items::from_vec(bytes))
}
