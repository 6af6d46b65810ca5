//! Rows 22 and 23: issued amounts.
ghost use Rattle.std.specs.Prelude.{◌≡◌, ◌+◌, ◌-◌, ◌^◌, ◌≤◌, ◌++◌, length, take, IsSome};
ghost use Rattle.std.specs.Int.{w64, from_be_bytes};
ghost use Rattle.xo_fields.specs.Amount.{amount_bytes, IsValid};
ghost use Rattle.xo_fields.specs.Form.{form_at};
ghost use Rattle.xo_fields.specs.Header.{header, IsField};
ghost use Rattle.hk_calls.specs.Answers.{Gave};
ghost use Rattle.hk_calls.specs.Outputs.{settled};
ghost use Rattle.hk_api_pure.specs.Amounts as rows;

use crate::floats::{float, is_xfl};
use hk_calls::{Code, Pair, account_of, field, inside, read, refuse, write_out};
use wa_num::Memory;
use xo_fields::{Amount, FieldId, write_amount, write_header};

/// The kind of amounts.
const AMOUNT: u8 = 6;
/// The first bit, which is 1 in an issued amount.
const ISSUED: u64 = 1 << 63;

/// Row 22: writes a field that is an issued amount.
#[tactic(auto, unfolding(crate::specs::Amounts::float_sto))]
pub(crate) fn float_sto(
    memory: &mut Memory,
    write: Pair,
    cp: Pair,
    ip: Pair,
    x: i64,
    number: u32,
) -> Result<i64, Code>
    ensures { Gave memory.old memory.new result
        (settled memory.old write (rows.float_sto memory.old write cp ip x number)) }
{
    inside(memory, write)?;
    let currency = read(memory, cp)?;
    let issuer = read(memory, ip)?;
    let x = float(x)?;
    let field = field(number)?;
    refuse(field.kind != AMOUNT, Code::InvalidField)?;
    refuse(!(cp.count == 20 && ip.count == 20), Code::InvalidArgument)?;
    let amount = Amount::Issued {
        value: x.bits(),
        currency: account_of(currency).0,
        issuer: account_of(issuer).0,
    };
    let (bytes, size) = spelled(field, &amount);
    write_out(memory, write, &bytes[..size])
}

/// A field that is an amount, and how many of the 51 bytes it takes.
fn spelled(field: FieldId, amount: &Amount) -> ([u8; 51], usize)
    requires field { IsField field }
    requires known { IsSome (form_at field.kind) }
    requires amount { IsValid amount.now }
    ensures size { result.1 ≤ 51 }
    ensures bytes { take result.1 result.0 ≡ header field ++ amount_bytes amount.now }
{
    let (front, front_size) = write_header(field);
    let (back, back_size) = write_amount(amount);
    let mut bytes = [0; 51];
    let size = front_size + back_size;
    bytes[..front_size].copy_from_slice(&front[..front_size]);
    bytes[front_size..size].copy_from_slice(&back[..back_size]);
    (bytes, size)
}

/// Row 23: the XFL of an issued amount, or of the first eight bytes of one.
pub(crate) fn float_sto_set(memory: &Memory, from: Pair) -> Result<i64, Code>
    ensures { result ≡ rows.float_sto_set memory.now from }
{
    let bytes = read(memory, from)?;
    refuse(!(from.count == 8 || from.count == 48), Code::NotAnAmount)?;
    let number = first_number(bytes);
    refuse(number < ISSUED, Code::NotIouAmount)?;
    let bits = (number - ISSUED) as i64;
    refuse(!is_xfl(bits), Code::NotAnAmount)?;
    Ok(bits)
}

/// The first eight bytes as a number.
fn first_number(bytes: &[u8]) -> u64
    requires { 8 ≤ length bytes.now }
    ensures { result ≡ rows.first_number bytes.now }
{
    let mut first = [0; 8];
    first.copy_from_slice(&bytes[..8]);
    u64::from_be_bytes(first)
}
