ghost use Rattle.std.specs.Option.{option_map_or};
ghost use Rattle.std.specs.Prelude.{◌≡◌, ◌+◌, ◌*◌, nat_le, slice_get};
ghost use Rattle.wa_ops.specs.HookRules as rule;

use crate::finding::ItemRule;
use crate::operations::{ends_second, has_constant};
use wa_ops::{Limits, Module, Op, RuleFault, Segment};

/// The place that an `i32.const` gives.
fn address_of(op: &Op) -> u32
    ensures address { result ≡ rule.address_of op.now }
{
    match op {
        Op::I32Const(number) => number.cast_unsigned(),
        _ => 0,
    }
}

/// The place that the first instruction gives.
fn first_address(ops: &[Op]) -> u32
    ensures address { result ≡ option_map_or rule.address_of (slice_get ops.now 0) 0 }
{
    match ops.get(0) {
        Some(op) => address_of(op),
        None => 0,
    }
}

/// Whether the bytes lie in a memory of so many pages, from a constant place.
fn lies_in(pages: u32, segment: &Segment) -> bool
    ensures lies { result ≡ rule.lies_in pages segment.now }
{
    let offset = segment.offset.as_slice();
    is_place(offset) && fits(pages, first_address(offset), segment.bytes.len())
}

fn is_place(offset: &[Op]) -> bool
    ensures place { result ≡ rule.is_one rule.is_constant offset.now }
{
    has_constant(offset, 0) && ends_second(offset)
}

fn fits(pages: u32, address: u32, size: usize) -> bool
    ensures fits { result ≡ nat_le (address + size) (pages * 65536) }
{
    let room = u64::from(pages) * 65536;
    let size = size as u64;
    size <= room && u64::from(address) <= room - size
}

fn is_in_memory(memories: &[Limits], segment: &Segment) -> bool
    ensures memory { result ≡ rule.is_in_memory memories.now segment.now }
{
    if segment.memory != 0 {
        return false;
    }
    match memories.get(0) {
        Some(limits) => lies_in(limits.min, segment),
        None => false,
    }
}

/// A data segment lies in the memory, from a constant place.
pub(crate) struct Segments;

impl ItemRule for Segments {
    type Item = Segment;

    ghost use Rattle.std.specs.Prelude.{not};
    ghost use Rattle.wa_ops.specs.HookRules.{is_in_memory};
    ghost use Rattle.wa_ops.specs.declared.rule_fault.RuleFault.TheVariants as fault;

    ghost broken = { λ m _ segment. not (is_in_memory m.memories segment) };

    ghost fault_at = { fault.BadData };

    fn is_broken(module: &Module, _index: usize, item: &Segment) -> bool {
        !is_in_memory(module.memories.as_slice(), item)
    }

    fn fault(index: u32) -> RuleFault {
        RuleFault::BadData { index }
    }
}
