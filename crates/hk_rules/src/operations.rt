ghost use Rattle.wa_ops.specs.Contexts.{callees};
ghost use Rattle.std.specs.Option.{option_map_or};
ghost use Rattle.std.specs.Prelude.{◌≡◌, ◌==◌, ◌&&◌, false, is_some, length, slice_get};
ghost use Rattle.wa_ops.specs.HookRules as rule;
ghost use Rattle.wa_ops.specs.Rows.{guard_row};
ghost use Rattle.wa_ops.specs.declared.op.ValueType.TheVariants.{I64};

use wa_ops::{CallNo, Op};

pub(crate) fn is_constant(op: &Op) -> bool
    ensures constant { result ≡ rule.is_constant op.now }
{
    match op {
        Op::I32Const(_) => true,
        _ => false,
    }
}

pub(crate) fn is_wide_constant(op: &Op) -> bool
    ensures constant { result ≡ rule.is_constant_of I64 op.now }
{
    match op {
        Op::I64Const(_) => true,
        _ => false,
    }
}

fn is_end(op: &Op) -> bool
    ensures end { result ≡ rule.is_end op.now }
{
    match op {
        Op::End => true,
        _ => false,
    }
}

pub(crate) fn is_loop(op: &Op) -> bool
    ensures is { result ≡ rule.is_loop op.now }
{
    match op {
        Op::Loop(_) => true,
        _ => false,
    }
}

pub(crate) fn is_indirect(op: &Op) -> bool
    ensures indirect { result ≡ rule.is_indirect op.now }
{
    match op {
        Op::CallIndirect(_) => true,
        _ => false,
    }
}

pub(crate) fn is_grow(op: &Op) -> bool
    ensures grow { result ≡ rule.is_grow op.now }
{
    match op {
        Op::MemoryGrow => true,
        _ => false,
    }
}

/// Whether the second instruction is the last, and an `end`.
pub(crate) fn ends_second(ops: &[Op]) -> bool
    ensures ends { result ≡ ((length ops.now == 2) && rule.passes rule.is_end ops.now 1) }
{
    match ops.get(1) {
        Some(op) => ops.len() == 2 && is_end(op),
        None => false,
    }
}

/// Whether there is an `i32.const` at this place.
pub(crate) fn has_constant(ops: &[Op], place: usize) -> bool
    ensures constant { result ≡ rule.passes rule.is_constant ops.now place }
{
    match ops.get(place) {
        Some(op) => is_constant(op),
        None => false,
    }
}

fn has_row(rows: &[CallNo], function: u32) -> bool
    ensures row { result ≡ is_some (slice_get rows.now function) }
{
    match rows.get(function as usize) {
        Some(_) => true,
        None => false,
    }
}

/// Whether the function with this index is an import of `_g`.
fn has_guard_row(rows: &[CallNo], function: u32) -> bool
    ensures guard { result ≡ option_map_or (λ row. row.0 == guard_row) (slice_get rows.now function) false }
{
    match rows.get(function as usize) {
        Some(row) => row.0 == CallNo::GUARD.0,
        None => false,
    }
}

/// Whether this is a call of a function that isn't imported.
pub(crate) fn is_own_call(rows: &[CallNo], op: &Op) -> bool
    ensures own { result ≡ rule.is_own_call (callees rows.now) op.now }
{
    match op {
        Op::Call(function) => !has_row(rows, *function),
        _ => false,
    }
}

/// Whether this is a call of `_g`.
fn is_guard_call(rows: &[CallNo], op: &Op) -> bool
    ensures guard { result ≡ rule.is_guard_call (callees rows.now) op.now }
{
    match op {
        Op::Call(function) => has_guard_row(rows, *function),
        _ => false,
    }
}

/// Whether there is a call of `_g` at this place.
pub(crate) fn has_guard_call(rows: &[CallNo], ops: &[Op], place: usize) -> bool
    ensures guard { result ≡ rule.passes (rule.is_guard_call (callees rows.now)) ops.now place }
{
    match ops.get(place) {
        Some(op) => is_guard_call(rows, op),
        None => false,
    }
}
