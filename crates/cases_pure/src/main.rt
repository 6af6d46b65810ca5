//! Cases of the calls that need no ledger: `ROW ARGUMENTS AT BYTES.. = ANSWER AT BYTES`, over one page of memory.
#![tactic(auto)]

use cases::{CaseFault, Family, Words, hex};
use hk_api_pure::pure_call;
use std::alloc::{AllocError, Global};
use std::io;
use wa_num::Memory;
use wa_ops::CallNo;

/// The size of the memory, in pages.
const PAGES: u32 = 1;
/// The same, in bytes.
const SIZE: u32 = 65_536;
/// How many bytes are compared at once.
const BLOCK: u32 = 256;

struct Pure;

impl Family for Pure {
    fn answer(&self, words: &mut Words<'_>) -> Result<String, CaseFault> {
        let row = words.value()?;
        let arguments = arguments(words)?;
        let mut memory = memory(words)?;
        let before = copy(words.alloc, &memory)?;
        let answer = call(words.alloc, row, arguments.as_slice(), &mut memory)?;
        match change(before.as_slice(), &memory) {
            None => Ok(format!(in words.alloc; "{answer}")?),
            Some((first, last)) => {
                let count = last.saturating_sub(first).saturating_add(1);
                let bytes = memory.read(first, count).ok_or(CaseFault::BadCase)?;
                let digits = hex(words.alloc, bytes)?;
                Ok(format!(in words.alloc; "{answer} {first} {digits}")?)
            }
        }
    }
}

// The numbers of the next word, with commas between them; `-` for none.
fn arguments(words: &mut Words<'_>) -> Result<Vec<u64>, CaseFault> {
    let mut arguments = Vec::new(words.alloc);
    let word = words.word()?;
    if word != "-" {
        for number in word.split(',') {
            let number: i64 = number.parse().or(Err(CaseFault::BadCase))?;
            arguments.extend_from_slice(&[number.cast_unsigned()])?;
        }
    }
    Ok(arguments)
}

// Zeros, and what the other words put into them.
fn memory(words: &mut Words<'_>) -> Result<Memory, CaseFault> {
    let mut memory = Memory::new(words.alloc, PAGES)?;
    for _ in 0..SIZE {
        if words.end().is_ok() {
            break;
        }
        let at = words.value()?;
        let bytes = words.bytes()?;
        if !memory.write(at, bytes.as_slice()) {
            return Err(CaseFault::BadCase);
        }
    }
    Ok(memory)
}

// The bytes of the memory.
fn copy(alloc: Global, memory: &Memory) -> Result<Vec<u8>, AllocError> {
    Vec::from_slice(alloc, memory.read(0, SIZE).unwrap_or(&[]))
}

fn call(alloc: Global, row: u8, arguments: &[u64], memory: &mut Memory) -> Result<i64, CaseFault> {
    if row < 3 || row > 26 {
        return Err(CaseFault::BadCase);
    }
    Ok(pure_call(alloc, CallNo(row), arguments, memory)?)
}

// The first and the last place of the bytes that are others now, block by block.
fn change(before: &[u8], memory: &Memory) -> Option<(u32, u32)> {
    let mut change = None;
    let mut at = 0u32;
    for block in before.chunks(BLOCK as usize) {
        let now = memory.read(at, BLOCK)?;
        if now != block {
            change = widened(change, at, block, now);
        }
        at = at.saturating_add(BLOCK);
    }
    change
}

// The same, with the places of a block that begins there.
fn widened(
    mut change: Option<(u32, u32)>,
    start: u32,
    before: &[u8],
    now: &[u8],
) -> Option<(u32, u32)> {
    let mut at = start;
    for (old, new) in before.iter().zip(now) {
        if old != new {
            change = match change {
                None => Some((at, at)),
                Some((first, _)) => Some((first, at)),
            };
        }
        at = at.saturating_add(1);
    }
    change
}

fn main(rt: HostRuntime) -> io::Result<()> {
    cases::run(&rt, &Pure)
}
