ghost use Rattle.std.specs.Prelude.{◌≡◌, IfOk, length};
ghost use Rattle.std.specs.Prelude.{◌-◌, ◌≤◌, ◌++◌, replicate};
ghost use Rattle.hk_calls.specs.Answers.{ReadsAs};
ghost use Rattle.hk_calls.specs.Rules as rules;

use crate::arguments::Pair;
use crate::code::Code;
use hk_base::{AccountId, Hash256};
use wa_num::Memory;
use xo_fields::FieldId;

/// This code where the condition holds.
pub fn refuse(condition: bool, code: Code) -> Result<(), Code>
    ensures { result ≡ rules.refuse condition code }
{
    if condition { Err(code) } else { Ok(()) }
}

/// Tests that a pair lies in the memory.
pub fn inside(memory: &Memory, pair: Pair) -> Result<(), Code>
    ensures { result ≡ rules.inside memory.now pair }
{
    match memory.read(pair.at, pair.count) {
        Some(_) => Ok(()),
        None => Err(Code::OutOfBounds),
    }
}

/// The bytes of a pair, which lies in the memory.
pub fn read(memory: &Memory, pair: Pair) -> Result<&[u8], Code>
    ensures bytes { ReadsAs result (rules.read memory.now pair) }
    ensures count { IfOk result (λ bytes. length bytes.now ≡ pair.count) }
{
    match memory.read(pair.at, pair.count) {
        Some(bytes) => Ok(bytes),
        None => Err(Code::OutOfBounds),
    }
}

/// Bytes as a name: from 1 to 32.
pub fn name(bytes: &[u8]) -> Result<&[u8], Code>
    ensures { ReadsAs result (rules.name bytes.now) }
{
    refuse(bytes.is_empty(), Code::TooSmall)?;
    refuse(bytes.len() > 32, Code::TooBig)?;
    Ok(bytes)
}

/// Bytes as a key: from 1 to 32, with zeros on the left.
pub fn key(bytes: &[u8]) -> Result<Hash256, Code>
    ensures { result ≡ rules.key bytes.now }
{
    refuse(bytes.is_empty(), Code::TooSmall)?;
    refuse(bytes.len() > 32, Code::TooBig)?;
    Ok(Hash256(padded(bytes)))
}

/// Zeros, and then the bytes.
fn padded(bytes: &[u8]) -> [u8; 32]
    requires { length bytes.now ≤ 32 }
    ensures { result ≡ replicate (32 - length bytes.now) 0 ++ bytes.now }
{
    let mut whole = [0; 32];
    whole[32 - bytes.len()..].copy_from_slice(bytes);
    whole
}

/// The field of a number.
pub fn field(number: u32) -> Result<FieldId, Code>
    ensures { result ≡ rules.field number }
{
    match FieldId::from_number(number) {
        Some(field) => Ok(field),
        None => Err(Code::InvalidField),
    }
}

/// An account of twenty bytes.
pub fn account_of(bytes: &[u8]) -> AccountId
    requires { length bytes.now ≡ 20 }
    ensures { result ≡ record { 0 = bytes.now } }
{
    let mut id = [0; 20];
    id.copy_from_slice(bytes);
    AccountId(id)
}

/// A hash of 32 bytes.
pub fn hash_of(bytes: &[u8]) -> Hash256
    requires { length bytes.now ≡ 32 }
    ensures { result ≡ record { 0 = bytes.now } }
{
    let mut hash = [0; 32];
    hash.copy_from_slice(bytes);
    Hash256(hash)
}
