//! The values that a run begins with.
ghost use Rattle.std.specs.Prelude.{◌*◌, ◌<◌, ◌≡◌, ◌≤◌, ◌^◌, length, IfOk, OnOk};
ghost use Rattle.wa_ops.specs.Soundness.{Each};
ghost use Rattle.wa_machine.specs.Starts.{constant_word, first_memory, first_place, first_word};
ghost use Rattle.wa_run.specs.Starts.{HasWidth, first_globals, first_locals};
ghost use Rattle.wa_ops.specs.HookRules.{address_of};

use std::alloc::Global;
use wa_num::Memory;
use wa_ops::{ModuleGlobal, NoMemory, Op, Segment};

/// The argument, and zeros for so many other locals.
pub(crate) fn first_locals(alloc: Global, argument: u32, count: u32) -> Result<Vec<u64>, NoMemory>
    ensures locals { IfOk result (λ locals. locals.items ≡ first_locals argument count) }
{
    let mut locals = Vec::with_capacity(alloc, count as usize + 1)?;
    locals.push(u64::from(argument))?;
    locals.resize(count as usize + 1, 0)?;
    Ok(locals)
}

/// The constants of the globals.
pub(crate) fn first_globals(alloc: Global, globals: &[ModuleGlobal]) -> Result<Vec<u64>, NoMemory>
    ensures globals { IfOk result (λ words. words.items ≡ first_globals globals.now) }
    ensures width { OnOk result (Each (λ global. HasWidth global.init) globals.now) }
{
    let mut words = Vec::with_capacity(alloc, globals.len())?;
    for global in globals {
        words.push(first_word(global.init.as_slice()))?;
    }
    Ok(words)
}

/// A memory of so many pages with the data in it.
pub(crate) fn first_memory(
    alloc: Global,
    pages: u32,
    segments: &[Segment],
) -> Result<Memory, NoMemory>
    requires pages { pages ≤ 16 }
    ensures memory { IfOk result (λ memory. memory ≡ first_memory pages segments.now) }
    ensures length { IfOk result (λ memory. length memory ≡ pages * 65536) }
{
    let mut memory = Memory::new(alloc, pages)?;
    for segment in segments {
        memory.write(
            first_place(segment.offset.as_slice()),
            segment.bytes.as_slice(),
        );
    }
    Ok(memory)
}

/// The number of the constant that an expression begins with.
fn first_word(ops: &[Op]) -> u64
    ensures word { result ≡ first_word ops.now }
    ensures width { HasWidth ops.now }
{
    match ops {
        [Op::I32Const(number), ..] => u64::from(number.cast_unsigned()),
        [Op::I64Const(number), ..] => number.cast_unsigned(),
        _ => 0,
    }
}

/// The place that an expression begins with.
fn first_place(ops: &[Op]) -> u32
    ensures place { result ≡ first_place ops.now }
{
    match ops {
        [Op::I32Const(number), ..] => number.cast_unsigned(),
        _ => 0,
    }
}
