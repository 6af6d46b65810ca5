//! Rows 41, 45 and 47 to 53: slots.
ghost use Rattle.std.specs.Prelude.{◌≡◌, ◌<◌, ◌≤◌, ◌^◌, length, ok_or, IfOk, Ok};
ghost use Rattle.hk_calls.specs.Answers.{Gave, GaveUnless, ReadsAs};
ghost use Rattle.hk_calls.specs.Outputs.{settled};
ghost use Rattle.hk_slots.specs.Slots.{bytes_at, kind_at};
ghost use Rattle.xo_list.specs.Value.{HasFields};
ghost use Rattle.hk_reading.specs.Amounts.{amount_of};
ghost use Rattle.xo_fields.specs.Amount.{IsValid};
ghost use Rattle.hk_api_parts.specs.SlotRows as rows;

use crate::setting::Setting;
use hk_calls::{Code, Pair, Refusal, field, inside, refuse, write_or_number};
use hk_slots::{SlotFault, Slots};
use wa_num::Memory;
use xfl::from_drops;
use xo_fields::{Amount, AmountRead, FieldId, one_amount_read, read_amount};

/// The kind of amounts.
const AMOUNT: u8 = 6;

/// The code of a fault.
pub fn code_of(fault: SlotFault) -> Code
    ensures { result ≡ rows.code_of fault }
{
    match fault {
        SlotFault::BadNumber => Code::InvalidArgument,
        SlotFault::DoesntExist => Code::DoesntExist,
        SlotFault::NotAnObject => Code::NotAnObject,
        SlotFault::NotAnArray => Code::NotAnArray,
        // A call that wants memory tells that apart before it asks for a code.
        SlotFault::NoFreeSlots | SlotFault::NoMemory => Code::NoFreeSlots,
    }
}

/// Puts an object into a slot, and answers its number.
pub fn put_object(slots: &mut Slots, into: u32, bytes: &[u8]) -> Result<i64, Refusal>
    requires object { HasFields bytes.now }
    requires short { length bytes.now < 2 ^ 32 }
    ensures { GaveUnless slots.old slots.new result (rows.put_object slots.old into bytes.now) }
{
    match slots.set(into, bytes) {
        Ok(number) => Ok(i64::from(number)),
        Err(SlotFault::NoMemory) => Err(Refusal::NoMemory),
        Err(fault) => Err(Refusal::Code(code_of(fault))),
    }
}

/// Row 41: puts the transaction into a slot, and answers its number.
pub fn otxn_slot(slots: &mut Slots, setting: &Setting, into: u32) -> Result<i64, Refusal>
    requires object { HasFields setting.now.transaction.blob }
    requires short { length setting.now.transaction.blob < 2 ^ 32 }
    ensures { GaveUnless slots.old slots.new result (rows.otxn_slot slots.old setting.now into) }
{
    put_object(slots, into, setting.transaction.blob.as_slice())
}

/// The bytes in a slot.
fn bytes_in(slots: &Slots, n: u32) -> Result<&[u8], Code>
    ensures { ReadsAs result (rows.slotted (bytes_at slots.now n)) }
{
    match slots.take(n) {
        Ok(bytes) => Ok(bytes),
        Err(fault) => Err(code_of(fault)),
    }
}

/// Row 45: writes the bytes in a slot.
pub fn slot(slots: &Slots, memory: &mut Memory, write: Pair, n: u32) -> Result<i64, Code>
    ensures { Gave memory.old memory.new result (settled memory.old write (rows.slot slots.now memory.old write n)) }
{
    inside(memory, write)?;
    let bytes = bytes_in(slots, n)?;
    write_or_number(memory, write, bytes)
}

/// Row 47: empties a slot, and answers 1.
pub fn slot_clear(slots: &mut Slots, n: u32) -> Result<i64, Code>
    ensures { Gave slots.old slots.new result (rows.slot_clear slots.old n) }
{
    match slots.clear(n) {
        Ok(()) => Ok(1),
        Err(fault) => Err(code_of(fault)),
    }
}

/// Row 48: how many elements the array in a slot has.
pub fn slot_count(slots: &Slots, n: u32) -> Result<i64, Code>
    ensures { result ≡ rows.slot_count slots.now n }
{
    match slots.count(n) {
        Ok(count) => Ok(i64::from(count)),
        Err(fault) => Err(code_of(fault)),
    }
}

/// Row 49: how many bytes are in a slot.
pub fn slot_size(slots: &Slots, n: u32) -> Result<i64, Code>
    ensures { result ≡ rows.slot_size slots.now n }
{
    let bytes = bytes_in(slots, n)?;
    Ok(bytes.len() as i64)
}

/// Row 50: puts the value of an object's field into a slot, and answers its number.
pub fn slot_subfield(slots: &mut Slots, n: u32, number: u32, into: u32) -> Result<i64, Code>
    ensures { Gave slots.old slots.new result (rows.slot_subfield slots.old n number into) }
{
    let field = field(number)?;
    match slots.subfield(n, field, into) {
        Ok(number) => Ok(i64::from(number)),
        Err(fault) => Err(code_of(fault)),
    }
}

/// Row 51: puts the contents of an array's element into a slot, and answers its number.
pub fn slot_subarray(slots: &mut Slots, n: u32, index: u32, into: u32) -> Result<i64, Code>
    ensures { Gave slots.old slots.new result (rows.slot_subarray slots.old n index into) }
{
    match slots.subarray(n, index, into) {
        Ok(number) => Ok(i64::from(number)),
        Err(fault) => Err(code_of(fault)),
    }
}

/// The field of a slot.
fn kind_of(slots: &Slots, n: u32) -> Result<Option<FieldId>, Code>
    ensures { result ≡ rows.slotted (kind_at slots.now n) }
{
    match slots.kind(n) {
        Ok(kind) => Ok(kind),
        Err(fault) => Err(code_of(fault)),
    }
}

/// The amount that bytes are.
fn amount_of(bytes: &[u8]) -> Result<Amount, Code>
    ensures amount { result ≡ ok_or (amount_of bytes.now) Code.NotAnAmount }
    ensures valid { IfOk result IsValid }
{
    one_amount_read();
    match read_amount(bytes, 0) {
        AmountRead::Cut => Err(Code::NotAnAmount),
        AmountRead::Bad => Err(Code::NotAnAmount),
        AmountRead::Amount { amount, size } => {
            if size == bytes.len() {
                Ok(amount)
            } else {
                Err(Code::NotAnAmount)
            }
        }
    }
}

/// The amount of a field's bytes.
fn amount_in(kind: Option<FieldId>, bytes: &[u8]) -> Result<Amount, Code>
    ensures amount { result ≡ rows.amount_in kind bytes.now }
    ensures valid { IfOk result IsValid }
{
    match kind {
        Some(field) if field.kind == AMOUNT => amount_of(bytes),
        _ => Err(Code::NotAnAmount),
    }
}

/// A field's number, 0 for none; or 1 for drops and 0 for an issued amount.
fn type_of(kind: Option<FieldId>, bytes: &[u8], flags: u32) -> Result<i64, Code>
    ensures { result ≡ rows.type_of kind bytes.now flags }
{
    if flags == 0 {
        return Ok(kind.map_or(0, |field| i64::from(field.number())));
    }
    match amount_in(kind, bytes)? {
        Amount::Native(_) => Ok(1),
        Amount::Issued { .. } => Ok(0),
    }
}

/// Row 52: the number of a slot's field, or what kind of amount is in it.
pub fn slot_type(slots: &Slots, n: u32, flags: u32) -> Result<i64, Code>
    ensures { result ≡ rows.slot_type slots.now n flags }
{
    let kind = kind_of(slots, n)?;
    let bytes = bytes_in(slots, n)?;
    refuse(flags > 1, Code::InvalidArgument)?;
    type_of(kind, bytes, flags)
}

/// An amount as the bits of an XFL.
fn float_of(amount: &Amount) -> i64
    requires valid { IsValid amount.now }
    ensures { rows.float_of amount.now ≡ Ok result }
{
    match amount {
        Amount::Native(drops) => from_drops(*drops).bits(),
        Amount::Issued { value, .. } => *value,
    }
}

/// Row 53: the amount in a slot, as an XFL.
pub fn slot_float(slots: &Slots, n: u32) -> Result<i64, Code>
    ensures { result ≡ rows.slot_float slots.now n }
{
    let kind = kind_of(slots, n)?;
    let bytes = bytes_in(slots, n)?;
    let amount = amount_in(kind, bytes)?;
    Ok(float_of(&amount))
}
