//! The instructions of a line of text.
ghost use Rattle.std.specs.Prelude.{◌≡◌, ◌≤◌, ◌^◌, map, IfOk, IfSome};
ghost use Rattle.wa_ops.specs.Opcodes.{form_at};
ghost use Rattle.wa_text.specs.Instructions.{alone, labels_of, name_of, one, operands, own_operands, result_of, two};
ghost use Rattle.wa_text.specs.Instructions.{value_type_of};
ghost use Rattle.wa_text.specs.Numbers.{IsBelow, signed_of, word_of};

use crate::TextLine;
use crate::numbers::{read_signed, read_word};
use std::alloc::Global;
use wa_ops::{Form, Items, NoMemory, Op, ValueType, form_of};

/// What stands behind an instruction's name.
#[tactic(auto, unfolding(crate::specs::Instructions::operands))]
pub(crate) fn read_operands(
    alloc: Global,
    opcode: u8,
    parts: &[&[u8]],
) -> Result<Option<TextLine>, NoMemory>
    ensures line { IfOk result (λ found. found ≡ operands (form_at opcode) opcode (map (λ word. word.now) parts.now)) }
{
    match form_of(opcode) {
        Form::Number => Ok(bare(Op::Number(opcode), parts)),
        Form::Load => {
            let Some((align, offset)) = read_access(alloc, parts)? else {
                return Ok(None);
            };
            Ok(Some(TextLine::Plain(Op::Load {
                opcode,
                align,
                offset,
            })))
        }
        Form::Store => {
            let Some((align, offset)) = read_access(alloc, parts)? else {
                return Ok(None);
            };
            Ok(Some(TextLine::Plain(Op::Store {
                opcode,
                align,
                offset,
            })))
        }
        Form::Other => own_operands(alloc, opcode, parts),
        _ => Ok(None),
    }
}

/// A line where nothing stands behind the first word.
pub(crate) fn alone(line: TextLine, parts: &[&[u8]]) -> Option<TextLine>
    ensures line { result ≡ alone line (map (λ word. word.now) parts.now) }
{
    if parts.is_empty() { Some(line) } else { None }
}

fn bare(op: Op, parts: &[&[u8]]) -> Option<TextLine>
    ensures line { result ≡ alone (TextLine.Plain op) (map (λ word. word.now) parts.now) }
{
    alone(TextLine::Plain(op), parts)
}

/// The one word behind the first, where it is a name.
pub(crate) fn read_name(alloc: Global, parts: &[&[u8]]) -> Result<Option<Items<u8>>, NoMemory>
    ensures name { IfOk result (λ found. found ≡ one name_of (map (λ word. word.now) parts.now)) }
{
    let [word] = parts else {
        return Ok(None);
    };
    if word.is_empty() {
        return Ok(None);
    }
    Ok(Some(Items::from_vec(Vec::from_slice(alloc, word)?)))
}

/// The alignment and the offset of an access.
fn read_access(alloc: Global, parts: &[&[u8]]) -> Result<Option<(u32, u32)>, NoMemory>
    ensures access { IfOk result (λ found. found ≡ two word_of word_of (map (λ word. word.now) parts.now)) }
{
    let [align, offset] = parts else {
        return Ok(None);
    };
    let Some(align) = read_word(alloc, align)? else {
        return Ok(None);
    };
    let Some(offset) = read_word(alloc, offset)? else {
        return Ok(None);
    };
    Ok(Some((align, offset)))
}

/// An index or a label, alone.
fn read_index(alloc: Global, parts: &[&[u8]]) -> Result<Option<u32>, NoMemory>
    ensures index { IfOk result (λ found. found ≡ one word_of (map (λ word. word.now) parts.now)) }
{
    match parts {
        [word] => read_word(alloc, word),
        _ => Ok(None),
    }
}

/// A signed number from `-half` to `half - 1`, alone.
fn read_constant(alloc: Global, half: u64, parts: &[&[u8]]) -> Result<Option<i64>, NoMemory>
    requires some { 1 ≤ half }
    requires most { half ≤ 2 ^ 63 }
    ensures number { IfOk result (λ found. found ≡ one (signed_of half) (map (λ word. word.now) parts.now)) }
    ensures range { IfOk result (λ found. IfSome found (λ number. IsBelow half number)) }
{
    match parts {
        [word] => read_signed(alloc, half, word),
        _ => Ok(None),
    }
}

fn value_type(word: &[u8]) -> Option<ValueType>
    ensures kind { result ≡ value_type_of word.now }
{
    if word == b"i32".as_slice() {
        Some(ValueType::I32)
    } else if word == b"i64".as_slice() {
        Some(ValueType::I64)
    } else if word == b"f32".as_slice() {
        Some(ValueType::F32)
    } else if word == b"f64".as_slice() {
        Some(ValueType::F64)
    } else {
        None
    }
}

/// A block's result.
fn read_result(parts: &[&[u8]]) -> Option<Option<ValueType>>
    ensures kind { result ≡ result_of (map (λ word. word.now) parts.now) }
{
    match parts {
        [] => Some(None),
        [word] => match value_type(word) {
            Some(kind) => Some(Some(kind)),
            None => None,
        },
        _ => None,
    }
}

/// The labels of a `br_table` and the default.
fn read_labels(alloc: Global, parts: &[&[u8]]) -> Result<Option<(Items<u32>, u32)>, NoMemory>
    ensures labels { IfOk result (λ found. found ≡ labels_of (map (λ word. word.now) parts.now)) }
{
    let mut labels = Items::new(alloc);
    let mut rest = parts;
    while let [word, after @ ..] = rest {
        let Some(label) = read_word(alloc, word)? else {
            return Ok(None);
        };
        if after.is_empty() {
            return Ok(Some((labels, label)));
        }
        labels.push(label)?;
        rest = after;
    }
    Ok(None)
}

/// An instruction made of a value, where one was read.
macro_rules! with {
    ($make:path, $read:expr) => {
        match $read {
            Some(value) => Ok(Some(TextLine::Plain($make(value)))),
            None => Ok(None),
        }
    };
}

/// What stands behind the name of an instruction with a form of its own.
#[tactic(auto, unfolding(crate::specs::Instructions::own_operands))]
fn own_operands(alloc: Global, opcode: u8, parts: &[&[u8]]) -> Result<Option<TextLine>, NoMemory>
    ensures line { IfOk result (λ found. found ≡ own_operands opcode (map (λ word. word.now) parts.now)) }
{
    match opcode {
        0x00 => Ok(bare(Op::Unreachable, parts)),
        0x01 => Ok(bare(Op::Nop, parts)),
        0x02 => with!(Op::Block, read_result(parts)),
        0x03 => with!(Op::Loop, read_result(parts)),
        0x04 => with!(Op::If, read_result(parts)),
        0x05 => Ok(bare(Op::Else, parts)),
        0x0B => Ok(bare(Op::End, parts)),
        0x0C => with!(Op::Br, read_index(alloc, parts)?),
        0x0D => with!(Op::BrIf, read_index(alloc, parts)?),
        0x0E => match read_labels(alloc, parts)? {
            Some((labels, last)) => Ok(Some(TextLine::Plain(Op::BrTable { labels, last }))),
            None => Ok(None),
        },
        0x0F => Ok(bare(Op::Return, parts)),
        0x10 => match read_name(alloc, parts)? {
            Some(name) => Ok(Some(TextLine::Call { name })),
            None => Ok(None),
        },
        0x1A => Ok(bare(Op::Drop, parts)),
        0x1B => Ok(bare(Op::Select, parts)),
        0x20 => with!(Op::LocalGet, read_index(alloc, parts)?),
        0x21 => with!(Op::LocalSet, read_index(alloc, parts)?),
        0x22 => with!(Op::LocalTee, read_index(alloc, parts)?),
        0x23 => with!(Op::GlobalGet, read_index(alloc, parts)?),
        0x24 => with!(Op::GlobalSet, read_index(alloc, parts)?),
        0x3F => Ok(bare(Op::MemorySize, parts)),
        0x41 => match read_constant(alloc, 2_147_483_648, parts)? {
            Some(value) => Ok(Some(TextLine::Plain(Op::I32Const(value as i32)))),
            None => Ok(None),
        },
        0x42 => with!(
            Op::I64Const,
            read_constant(alloc, 9_223_372_036_854_775_808, parts)?
        ),
        _ => Ok(None),
    }
}
