//! The ledger: entries, the header, and the numbers that go with them.
ghost use Rattle.std.specs.Prelude.{◌≡◌, ◌+◌, ◌<◌, ◌^◌, true, OnErr, OnOk};
ghost use Rattle.std.specs.Option.{option_copied, option_map};
ghost use Rattle.std.specs.FinMap as map;
ghost use Rattle.std.specs.Map.Iter.{deref_pair};
ghost use Rattle.hk_state.specs.Least.{Least, is_from, is_after};
ghost use Rattle.hk_state.specs.Ledger.{new_ledger, with_header, committed};
ghost use Rattle.hk_state.specs.Holdings.{holding_at};
ghost use Rattle.hk_state.specs.Writes.{AddsKey};

use crate::commit::make_all;
use crate::entries::Entries;
use crate::least::least_entry;
use crate::{Entry, Holding, Key, Overlay};
use hk_base::{AccountId, Hash256, NoMemory};
use std::alloc::Global;
use std::marker::Model;
use std::ops::Bound;

/// What an opened ledger tells of itself: its sequence, its time, and the hash of the one before.
#[derive(Clone, Copy, Debug)]
pub struct Header {
    pub seq: u32,
    pub time: u32,
    pub last_hash: Hash256,
}

/// The entries by their keys, the header, the number of the next emission, and the fees that were burnt, in drops.
#[derive(Drop)]
pub struct Ledger {
    pub(crate) entries: Entries,
    header: Header,
    next_number: u64,
    burnt: u64,
    alloc: Global,
}

impl Model for Ledger {
    ghost use Rattle.hk_state.specs.Ledger.{LedgerValue, coded_ledger};

    ghost Value = { LedgerValue };

    ghost coded = { coded_ledger };

    ghost view = { λ l. record { entries = l.entries; header = l.header; next = l.next_number; burnt = l.burnt } };
}

impl Ledger {
    /// A ledger without entries, with a header of zeros and the next number 1. It takes no memory.
    pub fn new(alloc: Global) -> Ledger
        ensures new { result ≡ new_ledger }
    {
        Ledger {
            entries: Entries::new(alloc),
            header: Header {
                seq: 0,
                time: 0,
                last_hash: Hash256([0; 32]),
            },
            next_number: 1,
            burnt: 0,
            alloc,
        }
    }

    /// The entry at a key. None exactly where there is none.
    pub fn get(&self, key: &Key) -> Option<&Entry>
        ensures entry { option_copied result ≡ map.get self.now.entries key.now }
    {
        self.entries.get(key)
    }

    /// The entry with the least key of all, if there is one.
    pub fn first(&self) -> Option<(&Key, &Entry)>
        ensures least { Least self.now.entries (λ _. true) (option_map deref_pair result) }
    {
        least_entry(&self.entries, Bound::Unbounded)
    }

    /// The least entry whose key isn't below a key, if there is one.
    pub fn least_from(&self, key: &Key) -> Option<(&Key, &Entry)>
        ensures least { Least self.now.entries (is_from key.now) (option_map deref_pair result) }
    {
        least_entry(&self.entries, Bound::Included(key))
    }

    /// The least entry whose key is above a key, if there is one.
    pub fn least_after(&self, key: &Key) -> Option<(&Key, &Entry)>
        ensures least { Least self.now.entries (is_after key.now) (option_map deref_pair result) }
    {
        least_entry(&self.entries, Bound::Excluded(key))
    }

    /// What the ledger holds for an account.
    pub fn holding(&self, id: &AccountId) -> Option<Holding>
        ensures holding { result ≡ holding_at self.now.entries id.now }
    {
        match self.get(&Key::Account(*id)) {
            Some(entry) => entry.holding(),
            None => None,
        }
    }

    pub fn header(&self) -> Header
        ensures header { result ≡ self.now.header }
    {
        self.header
    }

    /// The number of the next emission.
    pub fn next_number(&self) -> u64
        ensures next { result ≡ self.now.next }
    {
        self.next_number
    }

    /// The fees that were burnt, in drops.
    pub fn burnt(&self) -> u64
        ensures burnt { result ≡ self.now.burnt }
    {
        self.burnt
    }

    /// Sets the header, and changes nothing else. It takes no memory.
    pub fn set_header(&mut self, header: Header)
        ensures header { self.new ≡ with_header self.old header }
    {
        self.header = header;
    }

    /// Makes all writes, and adds to the next number and to the burnt fees. A refused call changes nothing, and comes
    /// only where an entry is written under a key that the ledger hasn't.
    pub fn commit(&mut self, overlay: Overlay, numbers: u64, burnt: u64) -> Result<(), NoMemory>
        requires number { self.old.next + numbers < 2 ^ 64 }
        requires burnt { self.old.burnt + burnt < 2 ^ 64 }
        ensures ok { OnOk result (self.new ≡ committed self.old overlay numbers burnt) }
        ensures err { OnErr result (self.new ≡ self.old) }
        ensures cause { OnErr result (AddsKey self.old.entries overlay) }
    {
        make_all(self.alloc, &mut self.entries, overlay)?;
        self.next_number += numbers;
        self.burnt += burnt;
        Ok(())
    }
}
