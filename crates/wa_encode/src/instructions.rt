//! Instructions and expressions.
ghost use Rattle.std.specs.Prelude.{◌≡◌, ◌∷◌, ◌++◌, [], OnOk};
ghost use Rattle.wa_ops.specs.Opcodes.{form_at};
ghost use Rattle.wa_encode.specs.Instructions.{expression, float_operands, op};
ghost use Rattle.wa_encode.specs.Numbers.{number, signed};
ghost use Rattle.wa_encode.specs.Vectors.{vector};

use crate::numbers::{signed, word};
use crate::types::result_byte;
use crate::vectors::{Index, Written, items, vector};
use std::alloc::Global;
use wa_ops::{Form, NoMemory, Op, form_of};

/// An instruction.
struct Instructions;

impl Written for Instructions {
    type Value = Op;

    ghost spell = { op };

    fn write(alloc: Global, value: &Op, out: &mut Vec<u8>) -> Result<(), NoMemory> {
        op(alloc, value, out)
    }
}

/// Appends an expression, whose last instruction is its own `end`.
pub(crate) fn expression(alloc: Global, ops: &[Op], out: &mut Vec<u8>) -> Result<(), NoMemory>
    ensures bytes { OnOk result (out.new.items ≡ out.old.items ++ expression ops.now) }
{
    items::<Instructions>(alloc, ops, out)
}

/// Appends an instruction.
fn op(alloc: Global, instruction: &Op, out: &mut Vec<u8>) -> Result<(), NoMemory>
    ensures bytes { OnOk result (out.new.items ≡ out.old.items ++ op instruction.now) }
{
    match instruction {
        Op::Unreachable => bare(0x00, out),
        Op::Nop => bare(0x01, out),
        Op::Block(result) => pair(0x02, result_byte(*result), out),
        Op::Loop(result) => pair(0x03, result_byte(*result), out),
        Op::If(result) => pair(0x04, result_byte(*result), out),
        Op::Else => bare(0x05, out),
        Op::End => bare(0x0B, out),
        Op::Br(label) => indexed(0x0C, *label, out),
        Op::BrIf(label) => indexed(0x0D, *label, out),
        Op::BrTable { labels, last } => label_table(alloc, labels.as_slice(), *last, out),
        Op::Return => bare(0x0F, out),
        Op::Call(index) => indexed(0x10, *index, out),
        Op::CallIndirect(index) => indirect(*index, out),
        Op::Drop => bare(0x1A, out),
        Op::Select => bare(0x1B, out),
        Op::LocalGet(index) => indexed(0x20, *index, out),
        Op::LocalSet(index) => indexed(0x21, *index, out),
        Op::LocalTee(index) => indexed(0x22, *index, out),
        Op::GlobalGet(index) => indexed(0x23, *index, out),
        Op::GlobalSet(index) => indexed(0x24, *index, out),
        Op::Load {
            opcode,
            align,
            offset,
        } => access(*opcode, *align, *offset, out),
        Op::Store {
            opcode,
            align,
            offset,
        } => access(*opcode, *align, *offset, out),
        Op::MemorySize => pair(0x3F, 0x00, out),
        Op::MemoryGrow => pair(0x40, 0x00, out),
        Op::I32Const(value) => constant(0x41, i64::from(*value), out),
        Op::I64Const(value) => constant(0x42, *value, out),
        Op::Number(opcode) => bare(*opcode, out),
        Op::Float(opcode) => float(*opcode, out),
    }
}

fn bare(opcode: u8, out: &mut Vec<u8>) -> Result<(), NoMemory>
    ensures bytes { OnOk result (out.new.items ≡ out.old.items ++ opcode ∷ []) }
{
    out.push(opcode)?;
    Ok(())
}

fn pair(opcode: u8, operand: u8, out: &mut Vec<u8>) -> Result<(), NoMemory>
    ensures bytes { OnOk result (out.new.items ≡ out.old.items ++ opcode ∷ operand ∷ []) }
{
    out.push(opcode)?;
    out.push(operand)?;
    Ok(())
}

fn indexed(opcode: u8, index: u32, out: &mut Vec<u8>) -> Result<(), NoMemory>
    ensures bytes { OnOk result (out.new.items ≡ out.old.items ++ opcode ∷ number index) }
{
    out.push(opcode)?;
    word(index, out)
}

fn label_table(alloc: Global, labels: &[u32], last: u32, out: &mut Vec<u8>) -> Result<(), NoMemory>
    ensures bytes { OnOk result (out.new.items ≡
        out.old.items ++ 0x0E ∷ (vector number labels.now ++ number last)) }
{
    out.push(0x0E)?;
    vector::<Index>(alloc, labels, out)?;
    word(last, out)
}

fn indirect(index: u32, out: &mut Vec<u8>) -> Result<(), NoMemory>
    ensures bytes { OnOk result (out.new.items ≡ out.old.items ++ 0x11 ∷ (number index ++ 0x00 ∷ [])) }
{
    out.push(0x11)?;
    word(index, out)?;
    out.push(0x00)?;
    Ok(())
}

fn access(opcode: u8, align: u32, offset: u32, out: &mut Vec<u8>) -> Result<(), NoMemory>
    ensures bytes { OnOk result (out.new.items ≡ out.old.items ++ opcode ∷ (number align ++ number offset)) }
{
    out.push(opcode)?;
    word(align, out)?;
    word(offset, out)
}

fn constant(opcode: u8, value: i64, out: &mut Vec<u8>) -> Result<(), NoMemory>
    ensures bytes { OnOk result (out.new.items ≡ out.old.items ++ opcode ∷ signed value) }
{
    out.push(opcode)?;
    signed(value, out)
}

/// Appends a float instruction, with zeros in place of what the module doesn't keep.
fn float(opcode: u8, out: &mut Vec<u8>) -> Result<(), NoMemory>
    ensures bytes { OnOk result (out.new.items ≡ out.old.items ++ opcode ∷ float_operands (form_at opcode) opcode) }
{
    out.push(opcode)?;
    match form_of(opcode) {
        Form::FloatAccess => out.extend_from_slice(&[0; 2])?,
        Form::FloatConstant => {
            out.extend_from_slice(if opcode == 0x43 { &[0; 4] } else { &[0; 8] })?
        }
        _ => {}
    }
    Ok(())
}
