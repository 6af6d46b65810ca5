//! What a hook runs on, and the rows that ask for it.
ghost use Rattle.std.specs.Prelude.{◌≡◌, ◌<◌, ◌^◌};
ghost use Rattle.std.specs.Option.{option_copied};
ghost use Rattle.xo_list.specs.Value.{HasFields};
ghost use Rattle.hk_calls.specs.Answers.{Gave};
ghost use Rattle.hk_calls.specs.Outputs.{settled};
ghost use Rattle.hk_api_parts.specs.Settings as rows;

use crate::chain_state::named;
use hk_calls::{Code, Pair, field, inside, name, read, write_or_number, write_out};
use hk_state::Header;
use wa_num::Memory;
use xo_fields::FieldId;
use xo_list::find_field;
use xo_object::Transaction;

/// What all hooks of an event run on: the transaction, and the header of the open ledger.
#[derive(Debug, Drop)]
pub struct Setting {
    pub transaction: Transaction,
    pub header: Header,
}

/// Row 27: the drops that each transaction needs.
pub fn fee_base() -> Result<i64, Code>
    ensures { result ≡ rows.fee_base }
{
    Ok(10)
}

/// Row 28: the open ledger's sequence number.
pub fn ledger_seq(setting: &Setting) -> Result<i64, Code>
    ensures { result ≡ rows.ledger_seq setting.now }
{
    Ok(i64::from(setting.header.seq))
}

/// Row 29: the open ledger's time.
pub fn ledger_last_time(setting: &Setting) -> Result<i64, Code>
    ensures { result ≡ rows.ledger_last_time setting.now }
{
    Ok(i64::from(setting.header.time))
}

/// Row 30: the hash of the ledger before the open one.
pub fn ledger_last_hash(setting: &Setting, memory: &mut Memory, write: Pair) -> Result<i64, Code>
    ensures { Gave memory.old memory.new result
        (settled memory.old write (rows.ledger_last_hash setting.now memory.old write)) }
{
    inside(memory, write)?;
    write_out(memory, write, &setting.header.last_hash.0)
}

/// Row 38: the transaction's type.
pub fn otxn_type(setting: &Setting) -> Result<i64, Code>
    ensures { result ≡ rows.otxn_type setting.now }
{
    Ok(i64::from(setting.transaction.kind))
}

/// Row 39: the transaction's id.
pub fn otxn_id(setting: &Setting, memory: &mut Memory, write: Pair) -> Result<i64, Code>
    ensures { Gave memory.old memory.new result
        (settled memory.old write (rows.otxn_id setting.now memory.old write)) }
{
    inside(memory, write)?;
    write_out(memory, write, &setting.transaction.id.0)
}

/// The value of a field in an object's bytes.
fn value_in(blob: &[u8], field: FieldId) -> Option<&[u8]>
    requires object { HasFields blob.now }
    ensures { option_copied result ≡ rows.value_in blob.now field }
{
    match find_field(blob, field) {
        Some(span) => Some(&blob[span.from..span.to]),
        None => None,
    }
}

/// Row 40: writes the value of a field of the transaction.
pub fn otxn_field(
    setting: &Setting,
    memory: &mut Memory,
    write: Pair,
    number: u32,
) -> Result<i64, Code>
    requires object { HasFields setting.now.transaction.blob }
    ensures { Gave memory.old memory.new result
        (settled memory.old write (rows.otxn_field setting.now memory.old write number)) }
{
    inside(memory, write)?;
    let field = field(number)?;
    let value = value_in(setting.transaction.blob.as_slice(), field).ok_or(Code::DoesntExist)?;
    write_or_number(memory, write, value)
}

/// Row 42: writes the transaction's parameter of a name.
pub fn otxn_param(
    setting: &Setting,
    memory: &mut Memory,
    write: Pair,
    from: Pair,
) -> Result<i64, Code>
    ensures { Gave memory.old memory.new result
        (settled memory.old write (rows.otxn_param setting.now memory.old write from)) }
{
    inside(memory, write)?;
    let bytes = read(memory, from)?;
    let name = name(bytes)?;
    let parameter = named(setting.transaction.parameters.as_slice(), name);
    let value = parameter.ok_or(Code::DoesntExist)?;
    write_or_number(memory, write, value.value.as_slice())
}

/// Row 43: the transaction's burden.
pub fn otxn_burden(setting: &Setting) -> Result<i64, Code>
    requires burden { setting.now.transaction.burden < 2 ^ 63 }
    ensures { result ≡ rows.otxn_burden setting.now }
{
    Ok(setting.transaction.burden as i64)
}

/// Row 44: how many emissions lead to the transaction.
pub fn otxn_generation(setting: &Setting) -> Result<i64, Code>
    ensures { result ≡ rows.otxn_generation setting.now }
{
    Ok(i64::from(setting.transaction.generation))
}
