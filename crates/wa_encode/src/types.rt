//! Types.
ghost use Rattle.std.specs.Prelude.{◌≡◌, ◌++◌, OnOk};
ghost use Rattle.wa_decode.specs.Instructions as decoder;
ghost use Rattle.wa_encode.specs.Modules.{func_type, global_type, limits, table, value_type};

use crate::numbers::word;
use crate::vectors::{Written, vector};
use std::alloc::Global;
use wa_ops::{FuncType, Limits, NoMemory, ValueType};

/// The byte of a type.
pub(crate) fn type_byte(kind: ValueType) -> u8
    ensures { result ≡ decoder.type_byte kind }
{
    match kind {
        ValueType::I32 => 0x7F,
        ValueType::I64 => 0x7E,
        ValueType::F32 => 0x7D,
        ValueType::F64 => 0x7C,
    }
}

/// The byte of a block's result.
pub(crate) fn result_byte(result_type: Option<ValueType>) -> u8
    ensures { result ≡ decoder.result_byte result_type }
{
    match result_type {
        None => 0x40,
        Some(kind) => type_byte(kind),
    }
}

/// A type of values.
struct ValueTypes;

impl Written for ValueTypes {
    type Value = ValueType;

    ghost spell = { value_type };

    fn write(_alloc: Global, value: &ValueType, out: &mut Vec<u8>) -> Result<(), NoMemory> {
        out.push(type_byte(*value))?;
        Ok(())
    }
}

/// The type of a function.
pub(crate) struct FuncTypes;

impl Written for FuncTypes {
    type Value = FuncType;

    ghost spell = { func_type };

    fn write(alloc: Global, value: &FuncType, out: &mut Vec<u8>) -> Result<(), NoMemory> {
        out.push(0x60)?;
        vector::<ValueTypes>(alloc, value.parameters.as_slice(), out)?;
        vector::<ValueTypes>(alloc, value.results.as_slice(), out)
    }
}

/// The limits of a memory.
pub(crate) struct Ranges;

impl Written for Ranges {
    type Value = Limits;

    ghost spell = { limits };

    fn write(_alloc: Global, value: &Limits, out: &mut Vec<u8>) -> Result<(), NoMemory> {
        limits(*value, out)
    }
}

/// The limits of a table, which has functions as elements.
pub(crate) struct Tables;

impl Written for Tables {
    type Value = Limits;

    ghost spell = { table };

    fn write(_alloc: Global, value: &Limits, out: &mut Vec<u8>) -> Result<(), NoMemory> {
        table(*value, out)
    }
}

/// Appends the least and the greatest size.
pub(crate) fn limits(range: Limits, out: &mut Vec<u8>) -> Result<(), NoMemory>
    ensures bytes { OnOk result (out.new.items ≡ out.old.items ++ limits range) }
{
    match range.max {
        None => {
            out.push(0x00)?;
            word(range.min, out)
        }
        Some(max) => {
            out.push(0x01)?;
            word(range.min, out)?;
            word(max, out)
        }
    }
}

/// Appends a table's type.
pub(crate) fn table(range: Limits, out: &mut Vec<u8>) -> Result<(), NoMemory>
    ensures bytes { OnOk result (out.new.items ≡ out.old.items ++ table range) }
{
    out.push(0x70)?;
    limits(range, out)
}

/// Appends a global's type.
pub(crate) fn global_type(kind: ValueType, mutable: bool, out: &mut Vec<u8>) -> Result<(), NoMemory>
    ensures bytes { OnOk result (out.new.items ≡ out.old.items ++ global_type kind mutable) }
{
    out.push(type_byte(kind))?;
    out.push(u8::from(mutable))?;
    Ok(())
}
