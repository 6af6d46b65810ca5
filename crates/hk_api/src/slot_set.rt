//! Row 46: the transaction and the ledger's entries in slots.
ghost use Rattle.std.specs.Prelude.{◌≡◌, ◌<◌, ◌≤◌, ◌^◌, length, IfOk, IfSome};
ghost use Rattle.std.specs.Option.{option_map};
ghost use Rattle.hk_calls.specs.Answers.{GaveUnless, changing};
ghost use Rattle.hk_api.specs.HostState.{with_slots};
ghost use Rattle.hk_api.specs.SlotSet as rows;

use crate::Api;
use crate::keylets::{entry_at, first_key, is_keylet};
use crate::shown::shown;
use hk_api_parts::{otxn_slot, put_object};
use hk_base::NoMemory;
use hk_calls::{Code, Pair, Refusal, read, refuse};
use wa_num::Memory;
use xo_object::Object;

/// How many bytes an id has, and an index.
const ID: u32 = 32;

/// How many bytes a keylet has: two before the index.
const KEYLET: u32 = 34;

impl Api<'_> {
    /// The object that an entry shows, by its keylet.
    fn entry_object(&self, keylet: &[u8]) -> Result<Option<Object>, NoMemory>
        requires size { 2 ≤ length keylet.now }
        ensures object { IfOk result (λ found. option_map (λ object. object.bytes) found ≡
            rows.entry_object self.now.draft.entries keylet.now) }
        ensures short { IfOk result (λ found. IfSome found (λ object. length object.bytes < 2 ^ 32)) }
    {
        match entry_at(self.ledger, &self.overlay, &first_key(keylet), &keylet[2..]) {
            Some((key, entry)) => shown(self.alloc, self.ledger, &self.overlay, key, entry),
            None => Ok(None),
        }
    }

    /// Puts the transaction into a slot, where this is its id.
    fn put_transaction(&mut self, id: &[u8], into: u32) -> Result<i64, Refusal>
        ensures { GaveUnless self.old self.new result
            (changing (with_slots self.old)
            (rows.put_found self.old.slots (rows.transaction_object self.old.setting id.now) into)) }
    {
        refuse(
            self.setting.transaction.id.0.as_slice() != id,
            Code::DoesntExist,
        )?;
        otxn_slot(&mut self.slots, self.setting, into)
    }

    /// Puts the object of an entry into a slot.
    fn put_entry(&mut self, keylet: &[u8], into: u32) -> Result<i64, Refusal>
        requires size { 2 ≤ length keylet.now }
        ensures { GaveUnless self.old self.new result
            (changing (with_slots self.old)
            (rows.put_found self.old.slots (rows.entry_object self.old.draft.entries keylet.now) into)) }
    {
        match self.entry_object(keylet)? {
            Some(object) => put_object(&mut self.slots, into, object.bytes()),
            None => Err(Refusal::Code(Code::DoesntExist)),
        }
    }

    /// Row 46: puts the transaction or an entry of the ledger into a slot, and answers its number.
    pub(crate) fn slot_set(
        &mut self,
        memory: &Memory,
        from: Pair,
        into: u32,
    ) -> Result<i64, Refusal>
        ensures { GaveUnless self.old self.new result
            (changing (with_slots self.old) (rows.slot_set self.old memory.now from into)) }
    {
        let bytes = read(memory, from)?;
        refuse(
            !(from.count == ID || from.count == KEYLET),
            Code::InvalidArgument,
        )?;
        refuse(
            from.count == KEYLET && !is_keylet(bytes),
            Code::NoSuchKeylet,
        )?;
        if from.count == ID {
            self.put_transaction(bytes, into)
        } else {
            self.put_entry(bytes, into)
        }
    }
}
