ghost use Rattle.std.specs.Prelude.{◌≡◌};
ghost use Rattle.wa_decode.specs.CodeReading.{access_at, indirect_at, op_at, other_at, table_at, zero_at};
ghost use Rattle.wa_decode.specs.Instructions.{constant_size};
ghost use Rattle.wa_decode.specs.Reading.{Gives};

use crate::fault::DecodeFault;
use crate::numbers::{number, signed32, signed64};
use crate::types::block_result;
use crate::vectors::{Index, cut, vector};
use std::alloc::Global;
use wa_ops::{Form, Items, Op, form_of};

/// An instruction and the bytes behind it.
#[tactic(auto, unfolding(crate::specs::CodeReading::op_at, crate::specs::CodeReading::formed_at))]
pub(crate) fn op(alloc: Global, bytes: &[u8]) -> Result<(Op, &[u8]), DecodeFault>
    ensures { Gives (λ x. (x.0, x.1.now)) result (op_at bytes.now) }
{
    let [opcode, rest @ ..] = bytes else {
        return Err(DecodeFault::Malformed);
    };
    let opcode = *opcode;
    match form_of(opcode) {
        Form::Number => Ok((Op::Number(opcode), rest)),
        Form::Load => {
            let ((align, offset), rest) = access(rest)?;
            Ok((
                Op::Load {
                    opcode,
                    align,
                    offset,
                },
                rest,
            ))
        }
        Form::Store => {
            let ((align, offset), rest) = access(rest)?;
            Ok((
                Op::Store {
                    opcode,
                    align,
                    offset,
                },
                rest,
            ))
        }
        Form::FloatAccess => {
            let (_, rest) = access(rest)?;
            Ok((Op::Float(opcode), rest))
        }
        Form::FloatNumber => Ok((Op::Float(opcode), rest)),
        Form::FloatConstant => {
            let (_, rest) = cut(if opcode == 0x43 { 4 } else { 8 }, rest)?;
            Ok((Op::Float(opcode), rest))
        }
        Form::Other => other(alloc, opcode, rest),
    }
}

/// The alignment and the offset of an access.
#[tactic(auto, unfolding(crate::specs::CodeReading::access_at))]
fn access(bytes: &[u8]) -> Result<((u32, u32), &[u8]), DecodeFault>
    ensures { Gives (λ x. (x.0, x.1.now)) result (access_at bytes.now) }
{
    let (align, rest) = number(bytes)?;
    let (offset, rest) = number(rest)?;
    Ok(((align, offset), rest))
}

/// A byte that is zero.
#[tactic(auto, unfolding(crate::specs::CodeReading::zero_at))]
fn zero(bytes: &[u8]) -> Result<&[u8], DecodeFault>
    ensures { Gives (λ rest. (tt, rest.now)) result (zero_at bytes.now) }
{
    let [0x00, rest @ ..] = bytes else {
        return Err(DecodeFault::Malformed);
    };
    Ok(rest)
}

/// The labels of a `br_table`.
#[tactic(auto, unfolding(crate::specs::CodeReading::table_at))]
fn label_table(alloc: Global, bytes: &[u8]) -> Result<((Items<u32>, u32), &[u8]), DecodeFault>
    ensures { Gives (λ x. (x.0, x.1.now)) result (table_at bytes.now) }
{
    let (labels, rest) = vector::<Index>(alloc, bytes)?;
    let (last, rest) = number(rest)?;
    Ok(((labels, last), rest))
}

/// The type index of a `call_indirect`.
#[tactic(auto, unfolding(crate::specs::CodeReading::indirect_at))]
fn indirect(bytes: &[u8]) -> Result<(u32, &[u8]), DecodeFault>
    ensures { Gives (λ x. ((x.0, tt), x.1.now)) result (indirect_at bytes.now) }
{
    let (index, rest) = number(bytes)?;
    let rest = zero(rest)?;
    Ok((index, rest))
}

/// An instruction made of one value that is read, and the bytes behind it.
macro_rules! with {
    ($make:path, $read:expr) => {{
        let (value, rest) = $read?;
        Ok(($make(value), rest))
    }};
}

/// An instruction whose opcode has a form of its own.
#[tactic(auto, unfolding(crate::specs::CodeReading::other_at))]
fn other(alloc: Global, opcode: u8, bytes: &[u8]) -> Result<(Op, &[u8]), DecodeFault>
    ensures { Gives (λ x. (x.0, x.1.now)) result (other_at opcode bytes.now) }
{
    match opcode {
        0x00 => Ok((Op::Unreachable, bytes)),
        0x01 => Ok((Op::Nop, bytes)),
        0x02 => with!(Op::Block, block_result(bytes)),
        0x03 => with!(Op::Loop, block_result(bytes)),
        0x04 => with!(Op::If, block_result(bytes)),
        0x05 => Ok((Op::Else, bytes)),
        0x0B => Ok((Op::End, bytes)),
        0x0C => with!(Op::Br, number(bytes)),
        0x0D => with!(Op::BrIf, number(bytes)),
        0x0E => {
            let ((labels, last), rest) = label_table(alloc, bytes)?;
            Ok((Op::BrTable { labels, last }, rest))
        }
        0x0F => Ok((Op::Return, bytes)),
        0x10 => with!(Op::Call, number(bytes)),
        0x11 => with!(Op::CallIndirect, indirect(bytes)),
        0x1A => Ok((Op::Drop, bytes)),
        0x1B => Ok((Op::Select, bytes)),
        0x20 => with!(Op::LocalGet, number(bytes)),
        0x21 => with!(Op::LocalSet, number(bytes)),
        0x22 => with!(Op::LocalTee, number(bytes)),
        0x23 => with!(Op::GlobalGet, number(bytes)),
        0x24 => with!(Op::GlobalSet, number(bytes)),
        0x3F => Ok((Op::MemorySize, zero(bytes)?)),
        0x40 => Ok((Op::MemoryGrow, zero(bytes)?)),
        0x41 => with!(Op::I32Const, signed32(bytes)),
        0x42 => with!(Op::I64Const, signed64(bytes)),
        _ => Err(DecodeFault::Malformed),
    }
}
