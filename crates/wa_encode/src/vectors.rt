//! Vectors and names.
ghost use Rattle.std.specs.Prelude.{ℕ, ◌≡◌, ◌++◌, List, OnOk, flat_map};
ghost use Rattle.wa_encode.specs.Numbers.{number};
ghost use Rattle.wa_encode.specs.Vectors.{text, vector};

use crate::numbers::{unsigned, word};
use std::alloc::Global;
use wa_ops::NoMemory;

/// How an item of a vector is written.
pub(crate) trait Written {
    type Value;

    /// The bytes of the item.
    ghost spell: { Self.Value → List ℕ };

    /// Appends the item.
    fn write(alloc: Global, value: &Self::Value, out: &mut Vec<u8>) -> Result<(), NoMemory>
        ensures { OnOk result (out.new.items ≡ out.old.items ++ spell value.now) };
}

/// An index, a label or another number of 32 bits.
pub(crate) struct Index;

impl Written for Index {
    type Value = u32;

    ghost spell = { number };

    fn write(_alloc: Global, value: &u32, out: &mut Vec<u8>) -> Result<(), NoMemory> {
        word(*value, out)
    }
}

/// Appends the count of the items, and the items.
pub(crate) fn vector<W: Written>(
    alloc: Global,
    values: &[W::Value],
    out: &mut Vec<u8>,
) -> Result<(), NoMemory>
    ensures bytes { OnOk result (out.new.items ≡ out.old.items ++ vector W.spell values.now) }
{
    unsigned(values.len() as u64, out)?;
    items::<W>(alloc, values, out)
}

/// Appends the items.
pub(crate) fn items<W: Written>(
    alloc: Global,
    values: &[W::Value],
    out: &mut Vec<u8>,
) -> Result<(), NoMemory>
    ensures bytes { OnOk result (out.new.items ≡ out.old.items ++ flat_map W.spell values.now) }
{
    for value in values {
        W::write(alloc, value, out)?;
    }
    Ok(())
}

/// Appends bytes behind their number.
pub(crate) fn text(bytes: &[u8], out: &mut Vec<u8>) -> Result<(), NoMemory>
    ensures bytes { OnOk result (out.new.items ≡ out.old.items ++ text bytes.now) }
{
    unsigned(bytes.len() as u64, out)?;
    out.extend_from_slice(bytes)?;
    Ok(())
}
