//! The slots of one execution.
ghost use Rattle.std.specs.Prelude.{◌≡◌, ◌<◌, ◌^◌, length, Ok, Err, MatchResult};
ghost use Rattle.hk_slots.specs.Slots.{SlotMap, no_slots, bytes_at, size_at, kind_at, count_at, cleared, with_object};
ghost use Rattle.hk_slots.specs.Slots.{with_subfield, with_element, with_part, Answers, AnswersUnless};
ghost use Rattle.hk_slots.specs.Part.{part_of};
ghost use Rattle.xo_list.specs.Value.{HasFields};

use crate::fault::SlotFault;
use crate::part::{Part, Step, bytes_of, is_array, part_in};
use crate::places::{SLOTS, held_at, is_number, keep, target};
use hk_base::Items;
use std::alloc::Global;
use std::marker::Model;
use xo_fields::FieldId;
use xo_list::{Span, count_elements};

/// The slots 1 to 255, each empty or with the bytes of an object or of a part of one.
///
/// Parts share the bytes that they lie in, so making one takes no memory.
#[derive(Drop)]
pub struct Slots {
    parts: [Option<Part>; SLOTS],
    blobs: Vec<Items<u8>>,
}

impl Model for Slots {
    ghost use Rattle.hk_slots.specs.Slots.{SlotMap};
    ghost use Rattle.hk_slots.specs.Part.{shown, ArePartsOf};

    ghost Value = { SlotMap };

    ghost view = { λ slots. shown slots.blobs.items slots.parts };

    ghost invariant = { λ slots. ArePartsOf slots.blobs.items slots.parts };
}

impl Slots {
    /// All slots empty. Takes no memory.
    pub fn new(alloc: Global) -> Slots
        ensures empty { result ≡ no_slots }
    {
        Slots {
            parts: [None; SLOTS],
            blobs: Vec::new(alloc),
        }
    }

    /// Puts an object into a slot, and answers its number. The target 0 is the lowest free slot; a taken slot is
    /// overwritten.
    #[tactic(auto, unfolding(crate::specs::Slots::with_object))]
    pub fn set(&mut self, slot: u32, blob: &[u8]) -> Result<u32, SlotFault>
        requires object { HasFields blob.now }
        requires short { length blob.now < 2 ^ 32 }
        ensures set { AnswersUnless self.old self.new result (with_object self.old slot blob.now) }
    {
        is_number(slot)?;
        let into = target(&self.parts, slot)?;
        let place = match keep(&mut self.blobs, &self.parts, blob) {
            Err(_) => return Err(SlotFault::NoMemory),
            Ok(place) => place,
        };
        self.parts[into as usize - 1] = Some(Part {
            field: None,
            blob: place,
            span: Span {
                from: 0,
                to: blob.len(),
            },
        });
        Ok(into)
    }

    /// Puts the value of an object's field into a slot, and answers its number. Takes no memory.
    #[tactic(auto, unfolding(crate::specs::Slots::with_subfield))]
    pub fn subfield(&mut self, slot: u32, field: FieldId, into: u32) -> Result<u32, SlotFault>
        ensures subfield { Answers self.old self.new result (with_subfield self.old slot field into) }
        ensures memory { result ≡ Err SlotFault.NoMemory → ⊥ }
    {
        self.share(slot, Step::Field(field), into)
    }

    /// Puts the contents of an array's element into a slot, and answers its number. Takes no memory.
    #[tactic(auto, unfolding(crate::specs::Slots::with_element))]
    pub fn subarray(&mut self, slot: u32, index: u32, into: u32) -> Result<u32, SlotFault>
        ensures subarray { Answers self.old self.new result (with_element self.old slot index into) }
        ensures memory { result ≡ Err SlotFault.NoMemory → ⊥ }
    {
        self.share(slot, Step::Element(index), into)
    }

    /// Puts a part of a slot into another, which then lies in the same blob.
    fn share(&mut self, slot: u32, step: Step, into: u32) -> Result<u32, SlotFault>
        ensures part { Answers self.old self.new result (with_part (part_of step) self.old slot into) }
        ensures memory { result ≡ Err SlotFault.NoMemory → ⊥ }
    {
        is_number(slot)?;
        is_number(into)?;
        let whole = held_at(&self.parts, slot)?;
        let part = part_in(self.blobs.as_slice(), &whole, step)?;
        let number = target(&self.parts, into)?;
        self.parts[number as usize - 1] = Some(part);
        Ok(number)
    }

    /// The bytes in a slot. Takes no memory.
    pub fn take(&self, slot: u32) -> Result<&[u8], SlotFault>
        ensures take { MatchResult result (λ bytes. bytes_at self.now slot ≡ Ok bytes.now)
            (λ fault. bytes_at self.now slot ≡ Err fault) }
    {
        let part = held_at(&self.parts, slot)?;
        Ok(bytes_of(self.blobs.as_slice(), &part))
    }

    /// Empties a slot. Takes no memory.
    pub fn clear(&mut self, slot: u32) -> Result<(), SlotFault>
        ensures clear { MatchResult result (λ _. cleared self.old slot ≡ Ok self.new)
            (λ fault. (cleared self.old slot ≡ Err fault) × (self.new ≡ self.old)) }
    {
        let _ = held_at(&self.parts, slot)?;
        self.parts[slot as usize - 1] = None;
        Ok(())
    }

    /// How many elements the array in a slot has. Takes no memory.
    pub fn count(&self, slot: u32) -> Result<u32, SlotFault>
        ensures count { result ≡ count_at self.now slot }
    {
        let part = held_at(&self.parts, slot)?;
        if !is_array(part.field) {
            return Err(SlotFault::NotAnArray);
        }
        Ok(count_elements(bytes_of(self.blobs.as_slice(), &part)))
    }

    /// How many bytes are in a slot. Takes no memory.
    pub fn size(&self, slot: u32) -> Result<usize, SlotFault>
        ensures size { result ≡ size_at self.now slot }
    {
        let part = held_at(&self.parts, slot)?;
        Ok(bytes_of(self.blobs.as_slice(), &part).len())
    }

    /// The field whose value is in a slot, and none of an object that was put there whole. Takes no memory.
    pub fn kind(&self, slot: u32) -> Result<Option<FieldId>, SlotFault>
        ensures kind { result ≡ kind_at self.now slot }
    {
        let part = held_at(&self.parts, slot)?;
        Ok(part.field)
    }
}
