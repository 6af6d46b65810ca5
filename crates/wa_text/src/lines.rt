//! The lines of the assembler's text.
ghost use Rattle.std.specs.Prelude.{◌≡◌, map, IfOk};
ghost use Rattle.wa_text.specs.Lines as lines;
ghost use Rattle.wa_text.specs.Instructions.{instructions, one, opcode_in};

use crate::instructions::{alone, read_name, read_operands};
use crate::names::opcode_of;
use crate::numbers::{read_signed, read_word};
use crate::{AsmRule, Constant, TextLine};
use hk_lines::{read_bytes, read_number, split_words};
use std::alloc::Global;
use wa_ops::{Items, NoMemory, ValueType};

/// Reads a line, without the spaces at its front, or the rule that it breaks by itself: `BadWord` where no line begins
/// with its first word, else `BadShape` where its parts aren't those of its first word.
///
/// # Errors
///
/// Want of memory alone.
pub fn read_text_line(alloc: Global, line: &[u8]) -> Result<Result<TextLine, AsmRule>, NoMemory>
    ensures read { IfOk result (λ found. found ≡ lines.text_read line.now) }
{
    let words = split_words(alloc, line)?;
    read_words(alloc, &words)
}

/// Reads the words of a line.
fn read_words(alloc: Global, words: &[&[u8]]) -> Result<Result<TextLine, AsmRule>, NoMemory>
    ensures read { IfOk result (λ found. found ≡ lines.words_read (map (λ word. word.now) words.now)) }
{
    let [name, parts @ ..] = words else {
        return Ok(Err(AsmRule::BadWord));
    };
    let found = if *name == b"import".as_slice() {
        read_import(alloc, parts)?
    } else if *name == b"memory".as_slice() {
        read_memory(alloc, parts)?
    } else if *name == b"global".as_slice() {
        read_global(alloc, parts)?
    } else if *name == b"data".as_slice() {
        read_data(alloc, parts)?
    } else if *name == b"func".as_slice() {
        read_function(parts)
    } else if *name == b"local".as_slice() {
        read_local(parts)
    } else if *name == b"close".as_slice() {
        alone(TextLine::Close, parts)
    } else if *name == b"done".as_slice() {
        alone(TextLine::Done, parts)
    } else {
        return read_instruction(alloc, name, parts);
    };
    Ok(found.ok_or(AsmRule::BadShape))
}

fn read_instruction(
    alloc: Global,
    name: &[u8],
    parts: &[&[u8]],
) -> Result<Result<TextLine, AsmRule>, NoMemory>
    ensures read { IfOk result (λ found. found ≡
        lines.instruction_read (opcode_in instructions name.now) (map (λ word. word.now) parts.now)) }
{
    let Some(opcode) = opcode_of(name) else {
        return Ok(Err(AsmRule::BadWord));
    };
    Ok(read_operands(alloc, opcode, parts)?.ok_or(AsmRule::BadShape))
}

fn read_import(alloc: Global, parts: &[&[u8]]) -> Result<Option<TextLine>, NoMemory>
    ensures line { IfOk result (λ found. found ≡ lines.import_of (map (λ word. word.now) parts.now)) }
{
    match read_name(alloc, parts)? {
        Some(name) => Ok(Some(TextLine::Import { name })),
        None => Ok(None),
    }
}

fn read_memory(alloc: Global, parts: &[&[u8]]) -> Result<Option<TextLine>, NoMemory>
    ensures line { IfOk result (λ found. found ≡ lines.memory_of (map (λ word. word.now) parts.now)) }
{
    let [word] = parts else {
        return Ok(None);
    };
    match read_number(alloc, 0, 16, word)? {
        Some(min) => Ok(Some(TextLine::Memory { min: min as u32 })),
        None => Ok(None),
    }
}

fn integer_type(word: &[u8]) -> Option<ValueType>
    ensures kind { result ≡ lines.integer_type_of word.now }
{
    if word == b"i32".as_slice() {
        Some(ValueType::I32)
    } else if word == b"i64".as_slice() {
        Some(ValueType::I64)
    } else {
        None
    }
}

fn mutable(word: &[u8]) -> Option<bool>
    ensures mutable { result ≡ lines.mutable_of word.now }
{
    if word == b"var".as_slice() {
        Some(true)
    } else if word == b"const".as_slice() {
        Some(false)
    } else {
        None
    }
}

fn read_value(alloc: Global, kind: ValueType, word: &[u8]) -> Result<Option<Constant>, NoMemory>
    ensures value { IfOk result (λ found. found ≡ lines.value_of kind word.now) }
{
    match kind {
        ValueType::I32 => match read_signed(alloc, 2_147_483_648, word)? {
            Some(value) => Ok(Some(Constant::I32(value as i32))),
            None => Ok(None),
        },
        _ => match read_signed(alloc, 9_223_372_036_854_775_808, word)? {
            Some(value) => Ok(Some(Constant::I64(value))),
            None => Ok(None),
        },
    }
}

fn read_global(alloc: Global, parts: &[&[u8]]) -> Result<Option<TextLine>, NoMemory>
    ensures line { IfOk result (λ found. found ≡ lines.global_of (map (λ word. word.now) parts.now)) }
{
    let [kind, mutability, value] = parts else {
        return Ok(None);
    };
    let Some(kind) = integer_type(kind) else {
        return Ok(None);
    };
    let Some(mutable) = mutable(mutability) else {
        return Ok(None);
    };
    let Some(value) = read_value(alloc, kind, value)? else {
        return Ok(None);
    };
    Ok(Some(TextLine::Global { mutable, value }))
}

fn read_data(alloc: Global, parts: &[&[u8]]) -> Result<Option<TextLine>, NoMemory>
    ensures line { IfOk result (λ found. found ≡ lines.data_of (map (λ word. word.now) parts.now)) }
{
    let [offset, bytes] = parts else {
        return Ok(None);
    };
    let Some(offset) = read_word(alloc, offset)? else {
        return Ok(None);
    };
    let Some(bytes) = read_bytes(alloc, bytes)? else {
        return Ok(None);
    };
    Ok(Some(TextLine::Data {
        offset,
        bytes: Items::from_vec(bytes.into_vec()),
    }))
}

fn read_function(parts: &[&[u8]]) -> Option<TextLine>
    ensures line { result ≡ one lines.function_of (map (λ word. word.now) parts.now) }
{
    let [word] = parts else {
        return None;
    };
    if *word == b"hook".as_slice() {
        Some(TextLine::Hook)
    } else if *word == b"cbak".as_slice() {
        Some(TextLine::Cbak)
    } else {
        None
    }
}

fn read_local(parts: &[&[u8]]) -> Option<TextLine>
    ensures line { result ≡ lines.local_of (map (λ word. word.now) parts.now) }
{
    let [word] = parts else {
        return None;
    };
    match integer_type(word) {
        Some(kind) => Some(TextLine::Local { kind }),
        None => None,
    }
}
