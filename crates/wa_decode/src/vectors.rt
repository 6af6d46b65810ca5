ghost use Rattle.std.specs.Prelude.{◌≡◌, ℕ, List, Option, IfOk};
ghost use Rattle.wa_decode.specs.Reading.{Gives, bytes_at, cut_at, items_at, sized_at, unsigned_at, vector_at};

use crate::fault::DecodeFault;
use crate::numbers::number;
use std::alloc::Global;
use wa_ops::Items;

/// How an item of a vector is read.
pub(crate) trait Spelled {
    type Value: Drop;

    /// The item at the front of the bytes and the bytes behind it, where they begin with one.
    ghost at: { List ℕ → Option (Self.Value × List ℕ) };

    fn read(alloc: Global, bytes: &[u8]) -> Result<(Self::Value, &[u8]), DecodeFault>
        ensures { Gives (λ x. (x.0, x.1.now)) result (at bytes.now) };
}

/// An index, a label or another number of 32 bits.
pub(crate) struct Index;

impl Spelled for Index {
    type Value = u32;

    ghost at = { unsigned_at 32 };

    fn read(_alloc: Global, bytes: &[u8]) -> Result<(u32, &[u8]), DecodeFault> {
        number(bytes)
    }
}

/// A count, and so many items.
#[tactic(auto, unfolding(crate::specs::Reading::vector_at))]
pub(crate) fn vector<R: Spelled>(
    alloc: Global,
    bytes: &[u8],
) -> Result<(Items<R::Value>, &[u8]), DecodeFault>
    ensures { Gives (λ x. (x.0, x.1.now)) result (vector_at R.at bytes.now) }
{
    let (count, rest) = number(bytes)?;
    items::<R>(alloc, count, rest)
}

/// So many items. Memory is taken for those alone that were read.
fn items<R: Spelled>(
    alloc: Global,
    count: u32,
    bytes: &[u8],
) -> Result<(Items<R::Value>, &[u8]), DecodeFault>
    ensures { Gives (λ x. (x.0, x.1.now)) result (items_at R.at count bytes.now) }
{
    let mut items = Items::new(alloc);
    let mut rest = bytes;
    for _ in 0..count {
        let (item, after) = R::read(alloc, rest)?;
        items.push(item)?;
        rest = after;
    }
    Ok((items, rest))
}

/// The first `size` bytes, and those behind them.
pub(crate) fn cut(size: usize, bytes: &[u8]) -> Result<(&[u8], &[u8]), DecodeFault>
    ensures { Gives (λ x. (x.0.now, x.1.now)) result (cut_at size bytes.now) }
{
    if bytes.len() < size {
        return Err(DecodeFault::Malformed);
    }
    Ok(bytes.split_at(size))
}

/// A size and so many bytes: a name, or what is read by itself.
#[tactic(auto, unfolding(crate::specs::Reading::bytes_at))]
pub(crate) fn text(bytes: &[u8]) -> Result<(&[u8], &[u8]), DecodeFault>
    ensures { Gives (λ x. (x.0.now, x.1.now)) result (bytes_at bytes.now) }
{
    let (size, rest) = number(bytes)?;
    cut(size as usize, rest)
}

/// A vector of bytes, copied.
pub(crate) fn copied_text(alloc: Global, bytes: &[u8]) -> Result<(Items<u8>, &[u8]), DecodeFault>
    ensures { Gives (λ x. (x.0, x.1.now)) result (bytes_at bytes.now) }
{
    let (text, rest) = text(bytes)?;
    Ok((Items::from_vec(Vec::from_slice(alloc, text)?), rest))
}
