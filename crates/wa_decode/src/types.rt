ghost use Rattle.std.specs.Prelude.{◌≡◌};
ghost use Rattle.wa_decode.specs.CodeReading.{result_at, value_type_at};
ghost use Rattle.wa_decode.specs.ModuleReading.{func_type_at, global_type_at, limits_at, mutable_at, table_type_at};
ghost use Rattle.wa_decode.specs.Reading.{Gives};

use crate::fault::DecodeFault;
use crate::numbers::number;
use crate::vectors::{Spelled, vector};
use std::alloc::Global;
use wa_ops::{FuncType, Limits, ValueType};

/// A value type.
pub(crate) struct Kinds;

impl Spelled for Kinds {
    type Value = ValueType;

    ghost at = { value_type_at };

    fn read(_alloc: Global, bytes: &[u8]) -> Result<(ValueType, &[u8]), DecodeFault> {
        value_type(bytes)
    }
}

/// The byte of a value type.
#[tactic(auto, unfolding(crate::specs::CodeReading::value_type_at))]
pub(crate) fn value_type(bytes: &[u8]) -> Result<(ValueType, &[u8]), DecodeFault>
    ensures { Gives (λ x. (x.0, x.1.now)) result (value_type_at bytes.now) }
{
    let [byte, rest @ ..] = bytes else {
        return Err(DecodeFault::Malformed);
    };
    match *byte {
        0x7F => Ok((ValueType::I32, rest)),
        0x7E => Ok((ValueType::I64, rest)),
        0x7D => Ok((ValueType::F32, rest)),
        0x7C => Ok((ValueType::F64, rest)),
        _ => Err(DecodeFault::Malformed),
    }
}

/// The result of a block: none, or one value.
#[tactic(auto, unfolding(crate::specs::CodeReading::result_at))]
pub(crate) fn block_result(bytes: &[u8]) -> Result<(Option<ValueType>, &[u8]), DecodeFault>
    ensures { Gives (λ x. (x.0, x.1.now)) result (result_at bytes.now) }
{
    let [byte, rest @ ..] = bytes else {
        return Err(DecodeFault::Malformed);
    };
    match *byte {
        0x40 => Ok((None, rest)),
        0x7F => Ok((Some(ValueType::I32), rest)),
        0x7E => Ok((Some(ValueType::I64), rest)),
        0x7D => Ok((Some(ValueType::F32), rest)),
        0x7C => Ok((Some(ValueType::F64), rest)),
        _ => Err(DecodeFault::Malformed),
    }
}

/// A function type.
pub(crate) struct FuncTypes;

impl Spelled for FuncTypes {
    type Value = FuncType;

    ghost at = { func_type_at };

    fn read(alloc: Global, bytes: &[u8]) -> Result<(FuncType, &[u8]), DecodeFault> {
        func_type(alloc, bytes)
    }
}

#[tactic(auto, unfolding(crate::specs::ModuleReading::func_type_at))]
fn func_type(alloc: Global, bytes: &[u8]) -> Result<(FuncType, &[u8]), DecodeFault>
    ensures { Gives (λ x. (x.0, x.1.now)) result (func_type_at bytes.now) }
{
    let [0x60, rest @ ..] = bytes else {
        return Err(DecodeFault::Malformed);
    };
    let (parameters, rest) = vector::<Kinds>(alloc, rest)?;
    let (results, rest) = vector::<Kinds>(alloc, rest)?;
    Ok((
        FuncType {
            parameters,
            results,
        },
        rest,
    ))
}

/// The limits of a memory.
pub(crate) struct Ranges;

impl Spelled for Ranges {
    type Value = Limits;

    ghost at = { limits_at };

    fn read(_alloc: Global, bytes: &[u8]) -> Result<(Limits, &[u8]), DecodeFault> {
        limits(bytes)
    }
}

#[tactic(auto, unfolding(crate::specs::ModuleReading::limits_at))]
pub(crate) fn limits(bytes: &[u8]) -> Result<(Limits, &[u8]), DecodeFault>
    ensures { Gives (λ x. (x.0, x.1.now)) result (limits_at bytes.now) }
{
    let [byte, rest @ ..] = bytes else {
        return Err(DecodeFault::Malformed);
    };
    match *byte {
        0x00 => {
            let (min, rest) = number(rest)?;
            Ok((Limits { min, max: None }, rest))
        }
        0x01 => {
            let (min, rest) = number(rest)?;
            let (max, rest) = number(rest)?;
            Ok((
                Limits {
                    min,
                    max: Some(max),
                },
                rest,
            ))
        }
        _ => Err(DecodeFault::Malformed),
    }
}

/// The type of a table: functions as elements, and limits.
pub(crate) struct Tables;

impl Spelled for Tables {
    type Value = Limits;

    ghost at = { table_type_at };

    fn read(_alloc: Global, bytes: &[u8]) -> Result<(Limits, &[u8]), DecodeFault> {
        table_type(bytes)
    }
}

#[tactic(auto, unfolding(crate::specs::ModuleReading::table_type_at))]
pub(crate) fn table_type(bytes: &[u8]) -> Result<(Limits, &[u8]), DecodeFault>
    ensures { Gives (λ x. (x.0, x.1.now)) result (table_type_at bytes.now) }
{
    let [0x70, rest @ ..] = bytes else {
        return Err(DecodeFault::Malformed);
    };
    limits(rest)
}

/// The type of a global, and whether it is mutable.
#[tactic(auto, unfolding(crate::specs::ModuleReading::global_type_at))]
pub(crate) fn global_type(bytes: &[u8]) -> Result<((ValueType, bool), &[u8]), DecodeFault>
    ensures { Gives (λ x. (x.0, x.1.now)) result (global_type_at bytes.now) }
{
    let (kind, rest) = value_type(bytes)?;
    let (mutable, rest) = mutability(rest)?;
    Ok(((kind, mutable), rest))
}

#[tactic(auto, unfolding(crate::specs::ModuleReading::mutable_at))]
fn mutability(bytes: &[u8]) -> Result<(bool, &[u8]), DecodeFault>
    ensures { Gives (λ x. (x.0, x.1.now)) result (mutable_at bytes.now) }
{
    let [byte, rest @ ..] = bytes else {
        return Err(DecodeFault::Malformed);
    };
    match *byte {
        0x00 => Ok((false, rest)),
        0x01 => Ok((true, rest)),
        _ => Err(DecodeFault::Malformed),
    }
}
