//! Rows 5 to 9: parts and edits of objects.
ghost use Rattle.std.specs.Prelude.{◌≡◌, ◌<◌, ◌≤◌, ◌^◌};
ghost use Rattle.hk_calls.specs.Answers.{Gave, GaveUnless};
ghost use Rattle.hk_calls.specs.Outputs.{settled};
ghost use Rattle.hk_api_pure.specs.Objects as rows;

use crate::editing::{emplaced, erased, is_object, subarray, subfield};
use hk_calls::{Code, Pair, Refusal, field, inside, read, write_out};
use std::alloc::Global;
use wa_num::Memory;
use xo_list::Span;

/// The place and the length of a part: place * 2^32 + length.
fn place_number(part: Span) -> i64
    requires order { part.from ≤ part.to }
    requires short { part.to < 2 ^ 32 }
    ensures { result ≡ rows.place_number part }
{
    let length = part.to - part.from;
    (part.from as u64 * 4_294_967_296 + length as u64).cast_signed()
}

/// Row 5: the place and the length of a field's value in an object.
pub(crate) fn sto_subfield(memory: &Memory, from: Pair, number: u32) -> Result<i64, Code>
    ensures { result ≡ rows.sto_subfield memory.now from number }
{
    let bytes = read(memory, from)?;
    let field = field(number)?;
    let part = subfield(bytes, field)?;
    Ok(place_number(part))
}

/// Row 6: the place and the length of an element in an array, with its header and end mark.
pub(crate) fn sto_subarray(memory: &Memory, from: Pair, index: u32) -> Result<i64, Code>
    ensures { result ≡ rows.sto_subarray memory.now from index }
{
    let bytes = read(memory, from)?;
    let part = subarray(bytes, index)?;
    Ok(place_number(part))
}

/// Row 7: writes an object with one spelled field put into it.
pub(crate) fn sto_emplace(
    alloc: Global,
    memory: &mut Memory,
    write: Pair,
    from: Pair,
    put: Pair,
    number: u32,
) -> Result<i64, Refusal>
    ensures { GaveUnless memory.old memory.new result
        (settled memory.old write (rows.sto_emplace memory.old write from put number)) }
{
    inside(memory, write)?;
    let bytes = read(memory, from)?;
    let spelled = read(memory, put)?;
    let field = field(number)?;
    let edited = emplaced(alloc, bytes, spelled, field)?;
    let answer = write_out(memory, write, edited.as_slice())?;
    Ok(answer)
}

/// Row 8: writes an object without a field.
pub(crate) fn sto_erase(
    alloc: Global,
    memory: &mut Memory,
    write: Pair,
    from: Pair,
    number: u32,
) -> Result<i64, Refusal>
    ensures { GaveUnless memory.old memory.new result
        (settled memory.old write (rows.sto_erase memory.old write from number)) }
{
    inside(memory, write)?;
    let bytes = read(memory, from)?;
    let field = field(number)?;
    let edited = erased(alloc, bytes, field)?;
    let answer = write_out(memory, write, edited.as_slice())?;
    Ok(answer)
}

/// Row 9: 1 for an object, else 0.
pub(crate) fn sto_validate(memory: &Memory, from: Pair) -> Result<i64, Code>
    ensures { result ≡ rows.sto_validate memory.now from }
{
    let bytes = read(memory, from)?;
    Ok(if is_object(bytes) { 1 } else { 0 })
}
