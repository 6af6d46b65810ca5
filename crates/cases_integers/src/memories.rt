//! Steps on a memory.
ghost use Rattle.std.specs.Prelude.{IfOk, IsTrue};
ghost use Rattle.wa_num.specs.Memory.{is_width};

use cases::{CaseFault, Words, hex};
use wa_num::Memory;

/// The most steps of a case.
const MOST_STEPS: u32 = 1000;

/// The answers of steps on a new memory.
pub fn steps(words: &mut Words<'_>) -> Result<String, CaseFault> {
    let pages: u32 = words.value()?;
    if pages > 16 {
        return Err(CaseFault::BadCase);
    }
    let mut memory = Memory::new(words.alloc, pages)?;
    let mut told = step(&mut memory, words)?;
    for _ in 0..MOST_STEPS {
        if words.end().is_ok() {
            break;
        }
        let next = step(&mut memory, words)?;
        told.push_str(" ")?;
        told.push_str(&next)?;
    }
    Ok(told)
}

fn step(memory: &mut Memory, words: &mut Words<'_>) -> Result<String, CaseFault> {
    match words.word()? {
        "len" => Ok(format!(in words.alloc; "{}", memory.len())?),
        "load" => load(memory, words),
        "store" => store(memory, words),
        "read" => read(memory, words),
        "write" => write(memory, words),
        _ => Err(CaseFault::BadCase),
    }
}

// `load ADDRESS OFFSET WIDTH`: the number, or `none`.
fn load(memory: &Memory, words: &mut Words<'_>) -> Result<String, CaseFault> {
    let address = words.value()?;
    let offset = words.value()?;
    let width = width(words)?;
    match memory.load(address, offset, width) {
        Some(number) => Ok(format!(in words.alloc; "{number}")?),
        None => Ok(format!(in words.alloc; "none")?),
    }
}

// `store ADDRESS OFFSET WIDTH NUMBER`: whether it lies in the memory.
fn store(memory: &mut Memory, words: &mut Words<'_>) -> Result<String, CaseFault> {
    let address = words.value()?;
    let offset = words.value()?;
    let width = width(words)?;
    let number = words.value()?;
    let stored = memory.store(address, offset, width, number);
    Ok(format!(in words.alloc; "{stored}")?)
}

// `read AT COUNT`: the bytes, or `none`.
fn read(memory: &Memory, words: &mut Words<'_>) -> Result<String, CaseFault> {
    let at = words.value()?;
    let count = words.value()?;
    match memory.read(at, count) {
        Some(bytes) => hex(words.alloc, bytes),
        None => Ok(format!(in words.alloc; "none")?),
    }
}

// `write AT BYTES`: whether they lie in the memory.
fn write(memory: &mut Memory, words: &mut Words<'_>) -> Result<String, CaseFault> {
    let at = words.value()?;
    let bytes = words.bytes()?;
    let written = memory.write(at, &bytes);
    Ok(format!(in words.alloc; "{written}")?)
}

// The bytes of an access: 1, 2, 4 or 8.
fn width(words: &mut Words<'_>) -> Result<u32, CaseFault>
    ensures width { IfOk result (λ n. IsTrue (is_width n)) }
{
    match words.value::<u32>()? {
        1 => Ok(1),
        2 => Ok(2),
        4 => Ok(4),
        8 => Ok(8),
        _ => Err(CaseFault::BadCase),
    }
}
