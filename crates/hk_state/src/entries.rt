//! The map from keys to entries.
ghost use Rattle.std.specs.Prelude.{◌≡◌, None, is_some, IsSome, OnErr, OnOk};
ghost use Rattle.std.specs.Option.{option_copied};
ghost use Rattle.std.specs.FinMap as map;

use crate::{Entry, Key};
use hk_base::NoMemory;
use std::alloc::{AllocError, Global};
use std::collections::BTreeMap;
use std::marker::Model;

/// A map from keys to entries, which contracts see as a finite map.
#[derive(Drop)]
pub struct Entries {
    pub(crate) kept: BTreeMap<Key, Entry>,
}

impl Model for Entries {
    ghost use Rattle.std.specs.FinMap as map;
    ghost use Rattle.hk_state.specs.Entries.{Entries, coded_entries};

    ghost Value = { Entries };

    ghost coded = { coded_entries };

    ghost view = { λ entries. map.from_entries entries.kept.entries };
}

impl Entries {
    /// A map without entries. It takes no memory.
    pub fn new(alloc: Global) -> Entries
        ensures empty { result ≡ map.empty }
    {
        Entries {
            kept: BTreeMap::new(alloc),
        }
    }

    /// The entry at a key.
    pub fn get(&self, key: &Key) -> Option<&Entry>
        ensures entry { option_copied result ≡ map.get self.now key.now }
    {
        self.kept.get(key)
    }

    /// Sets the entry at a key. A refused call leaves the map as it was, and comes only where there is no entry.
    pub fn put(&mut self, key: Key, entry: Entry) -> Result<(), NoMemory>
        ensures ok { OnOk result (self.new ≡ map.insert self.old key entry) }
        ensures err { OnErr result (self.new ≡ self.old) }
        ensures absent { OnErr result (map.get self.old key ≡ None) }
    {
        match self.kept.insert(key, entry) {
            Ok(_) => Ok(()),
            Err(_) => Err(AllocError),
        }
    }

    /// Whether there is an entry at a key.
    pub fn has(&self, key: &Key) -> bool
        ensures has { result ≡ is_some (map.get self.now key.now) }
    {
        self.kept.contains_key(key)
    }

    /// Sets the entry at a key that has one. It takes no memory, so it isn't refused.
    pub fn replace(&mut self, key: Key, entry: Entry)
        requires there { IsSome (map.get self.old key) }
        ensures replaced { self.new ≡ map.insert self.old key entry }
    {
        let _known = self.put(key, entry);
    }

    /// Removes the entry at a key, if there is one. It takes no memory.
    pub fn cut(&mut self, key: &Key)
        ensures removed { self.new ≡ map.remove self.old key.now }
    {
        self.kept.remove(key);
    }
}
