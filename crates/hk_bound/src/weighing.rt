ghost use Rattle.hk_bound.specs.Weights.{counted, inner_of, last_turns, savings, spared_by, total, weighed, weight};
ghost use Rattle.hk_bound.specs.Weights.{whole};
ghost use Rattle.std.specs.Option.{option_map_or};
ghost use Rattle.std.specs.Prelude.{◌≡◌, ◌+◌, ◌*◌, ◌<◌, ◌≤◌, ◌^◌, Some, length, slice_get};
ghost use Rattle.wa_ops.specs.Soundness.{IsCounted};

use hk_rules::{FunctionGuards, LoopGuard};
use wa_ops::Op;

fn limit_of(loops: &[LoopGuard], number: u32) -> u32
    ensures limit { result ≡ option_map_or (λ guard. guard.limit) (slice_get loops.now number) 0 }
{
    match loops.get(number as usize) {
        Some(guard) => guard.limit,
        None => 0,
    }
}

/// How often an instruction counts that belongs to this loop.
fn weight(loops: &[LoopGuard], inner: Option<u32>) -> u32
    ensures weight { result ≡ weight loops.now inner }
{
    match inner {
        Some(number) => limit_of(loops, number),
        None => 1,
    }
}

/// The innermost loop around the instruction at this place.
fn inner_at(innermost: &[Option<u32>], place: usize) -> Option<u32>
    ensures inner { result ≡ inner_of (slice_get innermost.now place) }
{
    match innermost.get(place) {
        Some(inner) => *inner,
        None => None,
    }
}

/// What an instruction adds.
fn counted(op: &Op, times: u32) -> u32
    ensures counted { result ≡ counted op.now times }
{
    match op {
        Op::Else => 0,
        _ => times,
    }
}

/// The sum over all instructions. Each of fewer than 2^32 adds less than 2^32.
fn total(ops: &[Op], loops: &[LoopGuard], innermost: &[Option<u32>]) -> u64
    requires counted { IsCounted ops.now }
    ensures total { result ≡ total loops.now ops.now innermost.now }
    ensures small { result + 3 < 2 ^ 64 }
{
    let mut sum = 0;
    for place in 0..ops.len() {
        let times = weight(loops, inner_at(innermost, place));
        sum += u64::from(counted(&ops[place], times));
    }
    sum
}

/// A pass that a guard refuses takes three turns.
fn last_turns(loops: &[LoopGuard]) -> u64
    ensures last { result ≡ last_turns loops.now }
{
    match loops {
        [] => 0,
        [_, ..] => 3,
    }
}

/// What version 1 spares at an instruction that belongs to this loop and whose cheaper arm costs so much.
fn spared_at(loops: &[LoopGuard], inner: Option<u32>, cost: u32) -> u64
    requires small { weight loops.now inner * cost < 2 ^ 64 }
    ensures spared { result ≡ weight loops.now inner * cost }
{
    u64::from(weight(loops, inner)) * u64::from(cost)
}

/// The entry of the instruction at this place.
fn cost_at(spared: &[u32], place: usize) -> u32
    requires place { place < length spared.now }
    ensures cost { slice_get spared.now place ≡ Some result }
{
    spared[place]
}

/// What version 1 spares: the sum over all instructions.
fn savings(loops: &[LoopGuard], innermost: &[Option<u32>], spared: &[u32]) -> u64
    requires small { savings loops.now innermost.now spared.now < 2 ^ 64 }
    ensures savings { result ≡ savings loops.now innermost.now spared.now }
{
    let mut sum = 0;
    for place in 0..spared.len() {
        let cost = cost_at(spared, place);
        sum += spared_at(loops, inner_at(innermost, place), cost);
    }
    sum
}

/// What all instructions add, and the last pass.
fn whole(ops: &[Op], guards: &FunctionGuards) -> u64
    requires counted { IsCounted ops.now }
    ensures whole { result ≡ whole ops.now guards.now }
{
    let loops = guards.loops.as_slice();
    total(ops, loops, guards.innermost.as_slice()) + last_turns(loops)
}

fn spared_by(guards: &FunctionGuards) -> u64
    requires small { spared_by guards.now < 2 ^ 64 }
    ensures savings { result ≡ spared_by guards.now }
{
    savings(
        guards.loops.as_slice(),
        guards.innermost.as_slice(),
        guards.spared.as_slice(),
    )
}

/// The bound of a function with these instructions and loops.
pub(crate) fn weigh(ops: &[Op], guards: &FunctionGuards, version: u16) -> u64
    requires counted { IsCounted ops.now }
    requires spares { spared_by guards.now ≤ whole ops.now guards.now }
    ensures bound { result ≡ weighed version ops.now guards.now }
{
    let whole = whole(ops, guards);
    if version == 0 {
        return whole;
    }
    whole - spared_by(guards)
}
