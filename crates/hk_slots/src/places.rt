//! The places of slots, and the blobs that their parts lie in.
ghost use Rattle.std.specs.Prelude.{◌≡◌, ◌<◌, ◌≤◌, ℕ, List, length, false, is_none, position, IfOk, IfSome, OnErr};
ghost use Rattle.std.specs.List.{list_any};
ghost use Rattle.hk_slots.specs.Slots.{is_number, held_at, target};
ghost use Rattle.hk_slots.specs.Part.{blob_at, shown, is_on, IsPart, ArePartsOf};

use crate::fault::SlotFault;
use crate::part::Part;
use hk_base::{Items, NoMemory};

/// The slots: 1 to 255.
pub(crate) const SLOTS: usize = 255;

/// Refuses a number above 255.
pub(crate) fn is_number(n: u32) -> Result<(), SlotFault>
    ensures number { result ≡ is_number n }
{
    if n > 255 {
        return Err(SlotFault::BadNumber);
    }
    Ok(())
}

/// The part in the slot that is read.
pub(crate) fn held_at(parts: &[Option<Part>], n: u32) -> Result<Part, SlotFault>
    ensures part { result ≡ held_at parts.now n }
    ensures is { (blobs : List (List ℕ)) → ArePartsOf blobs parts.now → IfOk result (IsPart blobs) }
{
    is_number(n)?;
    if n == 0 {
        return Err(SlotFault::DoesntExist);
    }
    match parts.get(n as usize - 1) {
        None => Err(SlotFault::DoesntExist),
        Some(part) => part.ok_or(SlotFault::DoesntExist),
    }
}

/// Where a target stands: 0 is the lowest free slot.
pub(crate) fn target(parts: &[Option<Part>], n: u32) -> Result<u32, SlotFault>
    requires all { length parts.now ≡ 255 }
    requires number { n ≤ 255 }
    ensures target { result ≡ target parts.now n }
    ensures first { IfOk result (λ m. 1 ≤ m) }
    ensures last { IfOk result (λ m. m ≤ 255) }
{
    if n != 0 {
        return Ok(n);
    }
    match lowest_free(parts) {
        None => Err(SlotFault::NoFreeSlots),
        Some(place) => Ok(place as u32 + 1),
    }
}

/// The place of the lowest free slot.
fn lowest_free(parts: &[Option<Part>]) -> Option<usize>
    ensures lowest { result ≡ position is_none parts.now }
    ensures within { IfSome result (λ place. place < length parts.now) }
{
    parts.iter().position(|part| part.is_none())
}

/// Keeps bytes as a blob, over one that no part lies in where there is one. Gives its place.
pub(crate) fn keep(
    blobs: &mut Vec<Items<u8>>,
    parts: &[Option<Part>],
    bytes: &[u8],
) -> Result<usize, NoMemory>
    requires { ArePartsOf blobs.old.items parts.now }
    ensures there { IfOk result (λ place. place < length blobs.new.items) }
    ensures kept { IfOk result (λ place. blob_at blobs.new.items place ≡ bytes.now) }
    ensures shown { shown blobs.new.items parts.now ≡ shown blobs.old.items parts.now }
    ensures parts { ArePartsOf blobs.new.items parts.now }
    ensures same { OnErr result (blobs.new.items ≡ blobs.old.items) }
{
    let blob = Items::from_vec(Vec::from_slice(*blobs.allocator(), bytes)?);
    let place = free_place(parts, blobs.len());
    if place < blobs.len() {
        blobs[place] = blob;
    } else {
        blobs.push(blob)?;
    }
    Ok(place)
}

/// The first of so many places that no part is on, or their number.
fn free_place(parts: &[Option<Part>], count: usize) -> usize
    ensures within { result ≤ count }
    ensures free { result < count → list_any (is_on result) parts.now ≡ false }
{
    for place in 0..count {
        if !is_taken(parts, place) {
            return place;
        }
    }
    count
}

/// Whether a part lies in the blob at that place.
fn is_taken(parts: &[Option<Part>], place: usize) -> bool
    ensures taken { result ≡ list_any (is_on place) parts.now }
{
    parts.iter().any(|part| match part {
        None => false,
        Some(part) => part.blob == place,
    })
}
