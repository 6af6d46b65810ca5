//! How amounts, hashes and numbers show.
ghost use Rattle.std.specs.Prelude.{◌≡◌, ◌-◌, ◌≤◌, ◌++◌, length, replicate, Some, IfOk};
ghost use Rattle.serde_json.specs.View.{view};
ghost use Rattle.xo_fields.specs.Amount.{IsAmount, IsValid};
ghost use Rattle.hk_reading.specs.Amounts.{amount_of};
ghost use Rattle.xo_showing.specs.Bytes.{number_of_bytes};
ghost use Rattle.xo_showing.specs.Showing.{hex, amount_shown, money_shown, fixed_shown};

use hk_base::NoMemory;
use serde_json::{Map, Value, put};
use std::alloc::Global;
use xo_fields::{Amount, AmountRead, one_amount, read_amount};

/// Bytes as a hex text.
pub(crate) fn hex_value(alloc: Global, bytes: &[u8]) -> Result<Value, NoMemory>
    ensures hex { IfOk result (λ value. view value ≡ hex bytes.now) }
{
    Ok(Value::from(hex::encode(alloc, bytes)?))
}

/// A value of a kind of so many bytes: a number up to four bytes, else hex.
pub(crate) fn fixed_value(alloc: Global, size: usize, bytes: &[u8]) -> Result<Value, NoMemory>
    requires { length bytes.now ≡ size }
    ensures fixed { IfOk result (λ value. view value ≡ fixed_shown size bytes.now) }
{
    if size <= 4 {
        Ok(Value::from(number_of(bytes)))
    } else {
        hex_value(alloc, bytes)
    }
}

/// The number of at most eight bytes, the first the highest.
fn number_of(bytes: &[u8]) -> u64
    requires { length bytes.now ≤ 8 }
    ensures number { result ≡ number_of_bytes bytes.now }
{
    u64::from_be_bytes(padded(bytes))
}

/// Zeros, and then the bytes.
fn padded(bytes: &[u8]) -> [u8; 8]
    requires { length bytes.now ≤ 8 }
    ensures { result ≡ replicate (8 - length bytes.now) 0 ++ bytes.now }
{
    let mut whole = [0; 8];
    whole[8 - bytes.len()..].copy_from_slice(bytes);
    whole
}

/// An amount.
pub(crate) fn money_value(alloc: Global, bytes: &[u8]) -> Result<Value, NoMemory>
    requires { IsAmount bytes.now }
    ensures money { IfOk result (λ value. view value ≡ money_shown (amount_of bytes.now)) }
{
    amount_value(alloc, &amount_in(bytes))
}

/// The amount that the bytes are.
fn amount_in(bytes: &[u8]) -> Amount
    requires { IsAmount bytes.now }
    ensures amount { amount_of bytes.now ≡ Some result }
    ensures valid { IsValid result }
{
    one_amount();
    match read_amount(bytes, 0) {
        AmountRead::Cut => unreachable!(),
        AmountRead::Bad => unreachable!(),
        AmountRead::Amount { amount, size: _ } => amount,
    }
}

/// Drops in decimal, or currency, issuer and the bits of the value in decimal.
fn amount_value(alloc: Global, amount: &Amount) -> Result<Value, NoMemory>
    ensures amount { IfOk result (λ value. view value ≡ amount_shown amount.now) }
{
    match amount {
        Amount::Native(drops) => Ok(Value::from(format!(in alloc; "{drops}")?)),
        Amount::Issued {
            value,
            currency,
            issuer,
        } => {
            let mut members = Map::new(alloc);
            put(&mut members, alloc, "currency", hex_value(alloc, currency)?)?;
            put(&mut members, alloc, "issuer", hex_value(alloc, issuer)?)?;
            let bits = Value::from(format!(in alloc; "{value}")?);
            put(&mut members, alloc, "value", bits)?;
            Ok(Value::Object(members))
        }
    }
}
