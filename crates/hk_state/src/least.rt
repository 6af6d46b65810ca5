//! The least entries of a ledger, and of a ledger with writes.
ghost use Rattle.std.specs.Prelude.{◌≡◌};
ghost use Rattle.std.specs.Bound.{bound_map};
ghost use Rattle.std.specs.Option.{option_map};
ghost use Rattle.std.specs.BTreeMap.Range.{is_from_start};
ghost use Rattle.std.specs.FinMap as map;
ghost use Rattle.std.specs.Map.Iter.{deref_pair};
ghost use Rattle.hk_state.specs.declared.key.Key.{Key};
ghost use Rattle.hk_state.specs.Keys.{key_cmp};
ghost use Rattle.hk_state.specs.Entries.{with_all};
ghost use Rattle.hk_state.specs.Least.{LeastOf, Least};
ghost use Rattle.hk_state.specs.LeastWrites.{unless_changed, put_of, lesser, with_put};

use crate::entries::Entries;
use crate::{Entry, Key};
use indexmap::IndexMap;
use std::ops::Bound;

/// The least entry from a bound on.
pub fn least_entry<'a>(entries: &'a Entries, start: Bound<&Key>) -> Option<(&'a Key, &'a Entry)>
    ensures least { Least entries.now (is_from_start key_cmp (bound_map (λ key. key.now) start.entry))
        (option_map deref_pair result) }
{
    entries.kept.range((start, Bound::Unbounded)).next()
}

/// The least entry from a bound on, once all writes are made.
pub fn least_with<'a>(
    entries: &'a Entries,
    writes: &'a IndexMap<Key, Option<Entry>>,
    start: Bound<&Key>,
) -> Option<(&'a Key, &'a Entry)>
    ensures least { Least (with_all entries.now writes.now.entries)
        (is_from_start key_cmp (bound_map (λ key. key.now) start.entry)) (option_map deref_pair result) }
{
    let kept = least_unwritten(entries, writes, start);
    let put = least_put(writes, start);
    lesser(kept, put)
}

// The least entry from a bound on that no write changes.
fn least_unwritten<'a>(
    entries: &'a Entries,
    writes: &IndexMap<Key, Option<Entry>>,
    start: Bound<&Key>,
) -> Option<(&'a Key, &'a Entry)>
    ensures least { LeastOf (λ q. unless_changed (map.find key_cmp q writes.now.entries) (map.get entries.now q))
        (is_from_start key_cmp (bound_map (λ key. key.now) start.entry)) (option_map deref_pair result) }
{
    for (key, entry) in entries.kept.range((start, Bound::Unbounded)) {
        if !writes.contains_key(key) {
            return Some((key, entry));
        }
    }
    None
}

// The least entry from a bound on that a write puts.
fn least_put<'a>(
    writes: &'a IndexMap<Key, Option<Entry>>,
    start: Bound<&Key>,
) -> Option<(&'a Key, &'a Entry)>
    ensures least { LeastOf (λ q. put_of (map.find key_cmp q writes.now.entries))
        (is_from_start key_cmp (bound_map (λ key. key.now) start.entry)) (option_map deref_pair result) }
{
    let mut least = None;
    for (key, change) in writes.iter() {
        least = lesser_put(least, start, key, change);
    }
    least
}

// The lesser of the least so far and of what a change puts at a key, if it is from the bound on.
fn lesser_put<'a>(
    least: Option<(&'a Key, &'a Entry)>,
    start: Bound<&Key>,
    key: &'a Key,
    change: &'a Option<Entry>,
) -> Option<(&'a Key, &'a Entry)>
    ensures lesser { option_map deref_pair result
        ≡ with_put (is_from_start key_cmp (bound_map (λ k. k.now) start.entry)) (option_map deref_pair least.entry)
        key.now change.now }
{
    match change {
        None => least,
        Some(entry) => {
            if starts(start, key) {
                lesser(least, Some((key, entry)))
            } else {
                least
            }
        }
    }
}

fn starts(start: Bound<&Key>, key: &Key) -> bool
    ensures starts { result ≡ is_from_start key_cmp (bound_map (λ k. k.now) start.entry) key.now }
{
    match start {
        Bound::Included(first) => first.compare(key).is_le(),
        Bound::Excluded(last) => last.compare(key).is_lt(),
        Bound::Unbounded => true,
    }
}

// The one with the lesser key.
fn lesser<'a>(
    one: Option<(&'a Key, &'a Entry)>,
    other: Option<(&'a Key, &'a Entry)>,
) -> Option<(&'a Key, &'a Entry)>
    ensures lesser { option_map deref_pair result
        ≡ lesser (option_map deref_pair one.entry) (option_map deref_pair other.entry) }
{
    match (one, other) {
        (Some(one), Some(other)) => {
            if other.0.compare(one.0).is_lt() {
                Some(other)
            } else {
                Some(one)
            }
        }
        (None, other) => other,
        (one, None) => one,
    }
}
