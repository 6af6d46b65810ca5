//! Amounts.
ghost use Rattle.std.specs.Prelude.{◌≡◌, ◌<◌, ◌^◌, ◌↔◌, ℕ, length, MatchOption, IfOk, IsTrue};
ghost use Rattle.serde_json.specs.Data.{Data, string, object};
ghost use Rattle.serde_json.specs.View.{view, members_view};
ghost use Rattle.xo_fields.specs.declared.form.Form.TheVariants.{Money};
ghost use Rattle.xo_fields.specs.Amount.{IsAmount};
ghost use Rattle.xo_json.specs.Parts.{ReadsValue, ReadsBits, ReadsWorth, issued_bytes, issued_members};

use crate::decimal::read_decimal;
use crate::plain::read_account;
use hk_base::NoMemory;
use serde_json::{Map, Value};
use std::alloc::Global;
use xo_fields::{AmountRead, one_amount, read_amount};
use xo_told::JsonFault;

/// The most drops of a native amount.
const MOST_DROPS: u64 = (1 << 62) - 1;
/// The second bit, which is 1 in a native amount.
const POSITIVE: u64 = 1 << 62;
/// The greatest bits of a decimal.
const MOST_BITS: u64 = (1 << 63) - 1;
/// The first bit, which is 1 in an issued amount.
const ISSUED: u64 = 1 << 63;

/// The bytes of an amount.
pub(crate) fn read_money(alloc: Global, value: &Value) -> Result<Vec<u8>, JsonFault>
    ensures value { (room : ℕ) → ReadsValue room Money (view value.now) result }
{
    if let Some(text) = value.as_str() {
        return read_native(alloc, text);
    }
    let Some(members) = value.as_object() else {
        return Err(JsonFault::BadValue);
    };
    read_issued(alloc, members)
}

/// The bytes of a native amount, of its drops in decimal.
fn read_native(alloc: Global, text: &str) -> Result<Vec<u8>, JsonFault>
    ensures value { (room : ℕ) → ReadsValue room Money (string text.now) result }
{
    match read_decimal(alloc, MOST_DROPS, text) {
        Err(_) => Err(JsonFault::NoMemory),
        Ok(None) => Err(JsonFault::BadValue),
        Ok(Some(drops)) => match Vec::from_slice(alloc, &(POSITIVE + drops).to_be_bytes()) {
            Err(_) => Err(JsonFault::NoMemory),
            Ok(bytes) => Ok(bytes),
        },
    }
}

/// The bytes of an issued amount.
fn read_issued(alloc: Global, members: &Map<String, Value>) -> Result<Vec<u8>, JsonFault>
    ensures value { (room : ℕ) → ReadsValue room Money (object (members_view members.now.entries)) result }
{
    let Some((currency, issuer, value)) = parts_of(members) else {
        return Err(JsonFault::BadValue);
    };
    match read_account(alloc, currency) {
        Err(fault) => Err(fault),
        Ok(currency) => match read_account(alloc, issuer) {
            Err(fault) => Err(fault),
            Ok(issuer) => read_worth(alloc, value, currency.as_slice(), issuer.as_slice()),
        },
    }
}

/// The bytes of an issued amount of that value.
fn read_worth(
    alloc: Global,
    value: &Value,
    currency: &[u8],
    issuer: &[u8],
) -> Result<Vec<u8>, JsonFault>
    requires currency { length currency.now ≡ 20 }
    requires issuer { length issuer.now ≡ 20 }
    ensures worth { ReadsWorth (view value.now) currency.now issuer.now result }
{
    match read_bits(alloc, value) {
        Err(fault) => Err(fault),
        Ok(bits) => match issued(alloc, bits, currency, issuer) {
            Err(_) => Err(JsonFault::NoMemory),
            Ok(bytes) => {
                if !is_amount(bytes.as_slice()) {
                    return Err(JsonFault::BadValue);
                }
                Ok(bytes)
            }
        },
    }
}

/// The currency, the issuer and the value, where the members are these alone.
fn parts_of<'a>(members: &'a Map<String, Value>) -> Option<(&'a Value, &'a Value, &'a Value)>
    ensures parts { MatchOption result
        ((a b c : Data) → members_view members.now.entries ≡ issued_members a b c → ⊥)
        (λ p. members_view members.now.entries ≡ issued_members (view p.0.now) (view p.1.now) (view p.2.now)) }
{
    let mut entries = members.iter();
    let Some((first, currency)) = entries.next() else {
        return None;
    };
    let Some((second, issuer)) = entries.next() else {
        return None;
    };
    let Some((third, value)) = entries.next() else {
        return None;
    };
    if let Some(_) = entries.next() {
        return None;
    }
    if first.as_str() != "currency" || second.as_str() != "issuer" || third.as_str() != "value" {
        return None;
    }
    Some((currency, issuer, value))
}

/// The bits of a decimal that is positive, 0 or negative, in decimal.
fn read_bits(alloc: Global, value: &Value) -> Result<u64, JsonFault>
    ensures bits { ReadsBits (view value.now) result }
{
    let Some(text) = value.as_str() else {
        return Err(JsonFault::BadValue);
    };
    match read_decimal(alloc, MOST_BITS, text) {
        Err(_) => Err(JsonFault::NoMemory),
        Ok(None) => Err(JsonFault::BadValue),
        Ok(Some(bits)) => Ok(bits),
    }
}

/// The bytes of an issued amount, of the bits of its value.
fn issued(alloc: Global, bits: u64, currency: &[u8], issuer: &[u8]) -> Result<Vec<u8>, NoMemory>
    requires { bits < 2 ^ 63 }
    ensures bytes { IfOk result (λ bytes. bytes.items ≡ issued_bytes bits currency.now issuer.now) }
{
    let mut bytes = Vec::from_slice(alloc, &(ISSUED + bits).to_be_bytes())?;
    bytes.extend_from_slice(currency)?;
    bytes.extend_from_slice(issuer)?;
    Ok(bytes)
}

/// Whether the bytes are an amount and no more.
fn is_amount(bytes: &[u8]) -> bool
    ensures amount { IsTrue result ↔ IsAmount bytes.now }
{
    one_amount();
    match read_amount(bytes, 0) {
        AmountRead::Cut => false,
        AmountRead::Bad => false,
        AmountRead::Amount { amount: _, size } => size == bytes.len(),
    }
}
