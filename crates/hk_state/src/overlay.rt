//! Changes that aren't on the ledger yet.
ghost use Rattle.std.specs.Prelude.{◌≡◌, ◌<◌, ◌≤◌, ℕ, [], drop, false, None, MatchOption, Some, IfOk, OnErr, OnOk};
ghost use Rattle.std.specs.Option.{option_copied, option_map};
ghost use Rattle.std.specs.FinMap as map;
ghost use Rattle.indexmap.specs.IndexMap.{get, keys, index_map_len, insert_entry};
ghost use Rattle.std.specs.Map.Iter.{deref_pair};
ghost use Rattle.hk_state.specs.declared.key.Key.{Key};
ghost use Rattle.hk_state.specs.declared.key.Key.TheVariants as key;
ghost use Rattle.hk_state.specs.declared.entry.Entry.TheVariants as entry;
ghost use Rattle.hk_state.specs.contracts.key.KeyPartialEq.TheImpl.{eq-value};
ghost use Rattle.hk_state.specs.Entries.{Entries};
ghost use Rattle.hk_state.specs.Holdings.{holding_at, with_holding};
ghost use Rattle.hk_state.specs.Least.{Least, is_from, is_after};
ghost use Rattle.hk_state.specs.Writes.{new_writes, written, relisted, with_writes, write_at, note, is_listed};

use crate::least::least_with;
use crate::{Entry, Holding, Key, Ledger};
use hk_base::{AccountId, NoMemory};
use indexmap::IndexMap;
use std::alloc::{AllocError, Global};
use std::marker::Model;
use std::ops::Bound;

/// Writes to a ledger that aren't made yet.
///
/// Contracts see the last change at each key, and the keys that were written since the last `relist`, by their first
/// write there.
#[derive(Drop)]
pub struct Overlay {
    pub(crate) writes: IndexMap<Key, Option<Entry>>,
    // How many writes, from the first on, were made before the last relist.
    from: usize,
}

impl Model for Overlay {
    ghost use Rattle.std.specs.Prelude.{◌≤◌, drop};
    ghost use Rattle.std.specs.FinMap as map;
    ghost use Rattle.indexmap.specs.IndexMap.{keys, index_map_len};
    ghost use Rattle.hk_state.specs.Writes.{Writes, coded_writes};

    ghost Value = { Writes };

    ghost coded = { coded_writes };

    ghost view = { λ overlay.
        record {
          changes = map.from_entries overlay.writes.entries;
          listed = drop overlay.from (keys overlay.writes);
        } };

    ghost invariant = { λ overlay. overlay.from ≤ index_map_len overlay.writes };
}

impl Overlay {
    /// No writes. It takes no memory.
    pub fn new(alloc: Global) -> Overlay
        ensures empty { result ≡ new_writes }
    {
        Overlay {
            writes: IndexMap::new(alloc),
            from: 0,
        }
    }

    /// The entry at a key of the ledger with all writes made. None exactly where that has none.
    pub fn get<'a>(&'a self, ledger: &'a Ledger, key: &Key) -> Option<&'a Entry>
        ensures entry { option_copied result ≡ map.get (with_writes ledger.now.entries self.now) key.now }
    {
        match self.writes.get(key) {
            Some(change) => change.as_ref(),
            None => ledger.get(key),
        }
    }

    /// The least entry of the ledger with all writes made whose key isn't below a key, if there is one.
    pub fn least_from<'a>(&'a self, ledger: &'a Ledger, key: &Key) -> Option<(&'a Key, &'a Entry)>
        ensures least { Least (with_writes ledger.now.entries self.now) (is_from key.now)
            (option_map deref_pair result) }
    {
        least_with(&ledger.entries, &self.writes, Bound::Included(key))
    }

    /// The least entry of the ledger with all writes made whose key is above a key, if there is one.
    pub fn least_after<'a>(&'a self, ledger: &'a Ledger, key: &Key) -> Option<(&'a Key, &'a Entry)>
        ensures least { Least (with_writes ledger.now.entries self.now) (is_after key.now)
            (option_map deref_pair result) }
    {
        least_with(&ledger.entries, &self.writes, Bound::Excluded(key))
    }

    /// Equal writes.
    pub fn copy(&self) -> Result<Overlay, NoMemory>
        ensures same { IfOk result (λ copied. copied ≡ self.now) }
    {
        let writes = copied(&self.writes)?;
        Ok(Overlay {
            writes,
            from: self.from,
        })
    }

    /// What the ledger with all writes made holds for an account.
    pub fn holding(&self, ledger: &Ledger, id: &AccountId) -> Option<Holding>
        ensures holding { result ≡ holding_at (with_writes ledger.now.entries self.now) id.now }
    {
        match self.get(ledger, &Key::Account(*id)) {
            Some(entry) => entry.holding(),
            None => None,
        }
    }

    /// The key at a place of the list, from 0, and the entry that its last write puts there, none for a removal.
    /// None exactly where the place is past the last key.
    pub fn write(&self, place: usize) -> Option<(&Key, Option<&Entry>)>
        ensures write { option_map (λ w. (w.0.now, option_copied w.1)) result ≡ write_at self.now place }
    {
        if place >= self.writes.len() - self.from {
            return None;
        }
        match self.writes.get_index(self.from + place) {
            Some((key, change)) => Some((key, change.as_ref())),
            None => None,
        }
    }

    /// Empties the list of written keys, and changes nothing else. It takes no memory.
    pub fn relist(&mut self)
        ensures relisted { self.new ≡ relisted self.old }
    {
        self.from = self.writes.len();
    }

    /// Sets the entry at a key. A refused call changes nothing, and never comes where the key is listed.
    pub fn put(&mut self, key: Key, entry: Entry) -> Result<(), NoMemory>
        ensures ok { OnOk result (self.new ≡ written self.old key (Some entry)) }
        ensures err { OnErr result (self.new ≡ self.old) }
        ensures unlisted { OnErr result (is_listed key self.old.listed ≡ false) }
    {
        self.set(key, Some(entry))
    }

    /// Removes the entry at a key. A refused call changes nothing, and never comes where the key is listed.
    pub fn remove(&mut self, key: Key) -> Result<(), NoMemory>
        ensures ok { OnOk result (self.new ≡ written self.old key None) }
        ensures err { OnErr result (self.new ≡ self.old) }
        ensures unlisted { OnErr result (is_listed key self.old.listed ≡ false) }
    {
        self.set(key, None)
    }

    /// Sets an account's balance and sequence. A refused call changes nothing.
    pub fn put_holding(&mut self, id: &AccountId, holding: Holding) -> Result<(), NoMemory>
        ensures ok { OnOk result
            (self.new ≡ written self.old (key.Account id.now) (Some (entry.Account holding.balance holding.sequence))) }
        ensures made { OnOk result
            ((m : Entries) →
            with_writes m self.new ≡ with_holding (with_writes m self.old) id.now holding.balance holding.sequence) }
        ensures err { OnErr result (self.new ≡ self.old) }
    {
        self.put(
            Key::Account(*id),
            Entry::Account {
                balance: holding.balance,
                sequence: holding.sequence,
            },
        )
    }

    fn set(&mut self, key: Key, change: Option<Entry>) -> Result<(), NoMemory>
        ensures ok { OnOk result (self.new ≡ written self.old key change) }
        ensures err { OnErr result (self.new ≡ self.old) }
        ensures unlisted { OnErr result (is_listed key self.old.listed ≡ false) }
    {
        let from = bring_last(&mut self.writes, self.from, &key);
        self.from = from;
        match self.writes.insert(key, change) {
            Ok(_) => Ok(()),
            Err(_) => Err(AllocError),
        }
    }
}

// Equal writes, in the same order.
fn copied(writes: &IndexMap<Key, Option<Entry>>) -> Result<IndexMap<Key, Option<Entry>>, NoMemory>
    ensures same { IfOk result (λ copied. copied.entries ≡ writes.now.entries) }
{
    let mut copied = IndexMap::new(*writes.allocator());
    for (key, change) in writes.iter() {
        add_write(&mut copied, key, copied_change(change)?)?;
    }
    Ok(copied)
}

fn copied_change(change: &Option<Entry>) -> Result<Option<Entry>, NoMemory>
    ensures same { IfOk result (λ copied. copied ≡ change.now) }
{
    match change {
        Some(entry) => Ok(Some(entry.copy()?)),
        None => Ok(None),
    }
}

fn add_write(
    writes: &mut IndexMap<Key, Option<Entry>>,
    key: &Key,
    change: Option<Entry>,
) -> Result<(), NoMemory>
    ensures ok { OnOk result (writes.new.entries ≡ insert_entry eq-value.it writes.old.entries key.now change) }
{
    match writes.insert(*key, change) {
        Ok(_) => Ok(()),
        Err(_) => Err(AllocError),
    }
}

// Moves a write that was made before the last relist behind all others, and gives how many are then left from before
// it.
fn bring_last(writes: &mut IndexMap<Key, Option<Entry>>, from: usize, key: &Key) -> usize
    requires within { from ≤ index_map_len writes.old }
    ensures within { result ≤ index_map_len writes.new }
    ensures same { (q : Key) → get eq-value.it writes.new q ≡ get eq-value.it writes.old q }
    ensures listed { MatchOption (get eq-value.it writes.old key.now)
        ((result ≡ from) × (writes.new.entries ≡ writes.old.entries))
        (λ _. drop result (keys writes.new) ≡ note key.now (drop from (keys writes.old))) }
{
    match writes.get_full(key) {
        Some((at, _, _)) if at < from => {
            writes.move_index(at, writes.len() - 1);
            from - 1
        }
        _ => from,
    }
}
