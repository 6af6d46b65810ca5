//! Writes that are made on the ledger's entries, all of them or none.
ghost use Rattle.std.specs.Prelude.{◌≡◌, ℕ, Bool, true, [], None, OnErr, OnOk, IsSome, MatchOption};
ghost use Rattle.std.specs.FinMap as map;
ghost use Rattle.hk_state.specs.declared.key.Key.{Key};
ghost use Rattle.hk_state.specs.Entries.{Entries, write, with_all};
ghost use Rattle.hk_state.specs.Room.{Adds, IsReady, AddsOne, is_put};
ghost use Rattle.hk_state.specs.Writes.{with_writes, AddsKey};

use crate::entries::Entries;
use crate::{Entry, Key, Overlay};
use hk_base::{Items, NoMemory};
use indexmap::IndexMap;
use std::alloc::{AllocError, Global};

/// Makes all writes. A refused call changes nothing, and comes only where an entry is written under a new key.
///
/// The new keys come first, each with a placeholder, and are taken out again where one is refused. What follows takes
/// no memory.
pub fn make_all(alloc: Global, entries: &mut Entries, overlay: Overlay) -> Result<(), NoMemory>
    ensures ok { OnOk result (entries.new ≡ with_writes entries.old overlay) }
    ensures err { OnErr result (entries.new ≡ entries.old) }
    ensures cause { OnErr result (AddsKey entries.old overlay) }
{
    let Overlay { writes, .. } = overlay;
    let mut added = Vec::new(alloc);
    match make_room(alloc, entries, &writes, &mut added) {
        Ok(()) => {
            make_each(entries, writes);
            Ok(())
        }
        Err(_) => {
            take_back(entries, added);
            Err(AllocError)
        }
    }
}

// Puts a placeholder under each new key that an entry is written to, and notes the key.
fn make_room(
    alloc: Global,
    entries: &mut Entries,
    writes: &IndexMap<Key, Option<Entry>>,
    added: &mut Vec<Key>,
) -> Result<(), NoMemory>
    requires none { added.old.items ≡ [] }
    ensures adds { Adds entries.old (is_put writes.now.entries) entries.new added.new.items }
    ensures ready { OnOk result (IsReady entries.new writes.now.entries) }
    ensures cause { OnErr result (AddsOne entries.old writes.now.entries) }
{
    for (key, change) in writes.iter() {
        if change.is_some() {
            make_place(alloc, entries, added, key)?;
        }
    }
    Ok(())
}

// Puts a placeholder under a key, and notes it, where it has no entry.
fn make_place(
    alloc: Global,
    entries: &mut Entries,
    added: &mut Vec<Key>,
    key: &Key,
) -> Result<(), NoMemory>
    ensures adds { (base : Entries) (puts : Key → Bool) → puts key.now ≡ true →
        Adds base puts entries.old added.old.items → Adds base puts entries.new added.new.items }
    ensures there { OnOk result (IsSome (map.get entries.new key.now)) }
    ensures stays { (q : Key) → IsSome (map.get entries.old q) → IsSome (map.get entries.new q) }
    ensures cause { OnErr result (map.get entries.old key.now ≡ None) }
{
    if entries.has(key) {
        return Ok(());
    }
    added.push(*key)?;
    entries.put(*key, Entry::Other(Items::new(alloc)))
}

// Takes out the keys that were added.
fn take_back(entries: &mut Entries, added: Vec<Key>)
    ensures taken { (base : Entries) (puts : Key → Bool) → Adds base puts entries.old added.items → entries.new ≡ base }
{
    let mut added = added;
    while let Some(key) = added.pop() {
        entries.cut(&key);
    }
}

// Makes the writes, where each key that an entry is written to has one.
fn make_each(entries: &mut Entries, writes: IndexMap<Key, Option<Entry>>)
    requires ready { IsReady entries.old writes.entries }
    ensures made { entries.new ≡ with_all entries.old writes.entries }
{
    let mut writes = writes;
    while let Some((key, change)) = writes.pop() {
        make_one(entries, key, change);
    }
}

fn make_one(entries: &mut Entries, key: Key, change: Option<Entry>)
    requires there { MatchOption change (Unit {0}) (λ _. IsSome (map.get entries.old key)) }
    ensures made { entries.new ≡ write entries.old key change }
{
    match change {
        Some(entry) => entries.replace(key, entry),
        None => entries.cut(&key),
    }
}
