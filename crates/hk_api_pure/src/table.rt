//! The rows from 3 to 26 of the table of calls.
ghost use Rattle.std.specs.Prelude.{◌≡◌, ◌≤◌, IfOk, OnOk, OnErr};
ghost use Rattle.hk_calls.specs.Answers.{Gave, GaveUnless};
ghost use Rattle.hk_calls.specs.Outputs.{outcome, answering};
ghost use Rattle.hk_api_pure.specs.Table as table;

use crate::amounts::{float_sto, float_sto_set};
use crate::decimals::{
    float_compare, float_divide, float_int, float_invert, float_mantissa, float_mulratio,
    float_multiply, float_negate, float_one, float_set, float_sign, float_sum,
};
use crate::hashes::{util_keylet, util_sha512h};
use crate::objects::{sto_emplace, sto_erase, sto_subarray, sto_subfield, sto_validate};
use crate::traces::{trace, trace_number};
use hk_calls::{Code, Refusal, exponent, narrow, pair_at, wide};
use std::alloc::{AllocError, Global};
use wa_num::Memory;
use wa_ops::{CallNo, NoMemory};

/// A call of a row from 3 to 26: its answer.
///
/// A place past the last argument counts as 0.
///
/// # Errors
///
/// `NoMemory`, and then the memory is as it was.
#[tactic(auto, unfolding(crate::specs::Table::pure_call))]
pub fn pure_call(
    alloc: Global,
    number: CallNo,
    arguments: &[u64],
    memory: &mut Memory,
) -> Result<i64, NoMemory>
    requires first { 3 ≤ number.0 }
    requires last { number.0 ≤ 26 }
    ensures answer { IfOk result (λ given. given ≡ (table.pure_call number.0 arguments.now memory.old).0) }
    ensures memory { OnOk result (memory.new ≡ (table.pure_call number.0 arguments.now memory.old).1) }
    ensures unchanged { OnErr result (memory.new ≡ memory.old) }
{
    match pure_row(alloc, number.0, arguments, memory) {
        Ok(answer) => Ok(answer),
        Err(Refusal::Code(code)) => Ok(code.number()),
        Err(Refusal::NoMemory) => Err(AllocError),
    }
}

/// Rows 3 to 26, by groups.
#[tactic(auto, unfolding(crate::specs::Table::pure_row))]
fn pure_row(alloc: Global, row: u8, a: &[u64], memory: &mut Memory) -> Result<i64, Refusal>
    ensures { GaveUnless memory.old memory.new result (table.pure_row row a.now memory.old) }
{
    match row {
        0..=4 => Ok(hash_row(row, a, memory)?),
        5..=9 => object_row(alloc, row, a, memory),
        10..=21 => Ok(decimal_row(row, a)?),
        22..=23 => Ok(amount_row(row, a, memory)?),
        _ => Ok(trace_row(row, a, memory)?),
    }
}

#[tactic(auto, unfolding(crate::specs::Table::hash_row))]
fn hash_row(row: u8, a: &[u64], memory: &mut Memory) -> Result<i64, Code>
    ensures { Gave memory.old memory.new result (outcome a.now memory.old (table.hash_row row a.now memory.old)) }
{
    match row {
        3 => util_sha512h(memory, pair_at(a, 0), pair_at(a, 2)),
        _ => util_keylet(
            memory,
            pair_at(a, 0),
            narrow(a, 2),
            pair_at(a, 3),
            pair_at(a, 5),
            pair_at(a, 7),
        ),
    }
}

#[tactic(auto, unfolding(crate::specs::Table::object_row))]
fn object_row(alloc: Global, row: u8, a: &[u64], memory: &mut Memory) -> Result<i64, Refusal>
    ensures { GaveUnless memory.old memory.new result
        (outcome a.now memory.old (table.object_row row a.now memory.old)) }
{
    match row {
        5 => Ok(sto_subfield(memory, pair_at(a, 0), narrow(a, 2))?),
        6 => Ok(sto_subarray(memory, pair_at(a, 0), narrow(a, 2))?),
        7 => sto_emplace(
            alloc,
            memory,
            pair_at(a, 0),
            pair_at(a, 2),
            pair_at(a, 4),
            narrow(a, 6),
        ),
        8 => sto_erase(alloc, memory, pair_at(a, 0), pair_at(a, 2), narrow(a, 4)),
        _ => Ok(sto_validate(memory, pair_at(a, 0))?),
    }
}

#[tactic(auto, unfolding(crate::specs::Table::decimal_row))]
fn decimal_row(row: u8, a: &[u64]) -> Result<i64, Code>
    ensures { result ≡ table.decimal_row row a.now }
{
    match row {
        10 => float_one(),
        11 => float_set(exponent(a, 0), wide(a, 1)),
        12 => float_multiply(wide(a, 0), wide(a, 1)),
        13 => float_mulratio(wide(a, 0), narrow(a, 1), narrow(a, 2), narrow(a, 3)),
        14 => float_divide(wide(a, 0), wide(a, 1)),
        15 => float_invert(wide(a, 0)),
        16 => float_sum(wide(a, 0), wide(a, 1)),
        17 => float_negate(wide(a, 0)),
        18 => float_compare(wide(a, 0), wide(a, 1), narrow(a, 2)),
        19 => float_mantissa(wide(a, 0)),
        20 => float_sign(wide(a, 0)),
        _ => float_int(wide(a, 0), narrow(a, 1), narrow(a, 2)),
    }
}

#[tactic(auto, unfolding(crate::specs::Table::amount_row))]
fn amount_row(row: u8, a: &[u64], memory: &mut Memory) -> Result<i64, Code>
    ensures { Gave memory.old memory.new result (outcome a.now memory.old (table.amount_row row a.now memory.old)) }
{
    match row {
        22 => float_sto(
            memory,
            pair_at(a, 0),
            pair_at(a, 2),
            pair_at(a, 4),
            wide(a, 6),
            narrow(a, 7),
        ),
        _ => float_sto_set(memory, pair_at(a, 0)),
    }
}

#[tactic(auto, unfolding(crate::specs::Table::trace_row))]
fn trace_row(row: u8, a: &[u64], memory: &Memory) -> Result<i64, Code>
    ensures { result ≡ table.trace_row row a.now memory.now }
{
    match row {
        24 => trace(memory, pair_at(a, 0), pair_at(a, 2)),
        _ => trace_number(memory, pair_at(a, 0)),
    }
}
