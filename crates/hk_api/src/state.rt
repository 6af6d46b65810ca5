//! Rows 54 to 57: what hooks keep on the ledger.
ghost use Rattle.std.specs.Prelude.{◌≡◌, ◌+◌, ◌*◌, ◌<◌, ◌≤◌, ◌^◌, ◌⊎◌, length, IfOk, IsFalse};
ghost use Rattle.std.specs.Option.{option_copied};
ghost use Rattle.std.specs.FinMap as map;
ghost use Rattle.hk_calls.specs.Answers.{Gave, GaveUnless, ReadsAs, changing};
ghost use Rattle.hk_calls.specs.Outputs.{settled};
ghost use Rattle.hk_state.specs.Keys.{as_key};
ghost use Rattle.hk_state.specs.Reserves.{reserve, units, units_in, unit_reserve};
ghost use Rattle.hk_api.specs.Fits.{ReservesFit};
ghost use Rattle.hk_api.specs.HostState.{with_write};
ghost use Rattle.hk_api.specs.States as rows;

use crate::Api;
use hk_api_parts::Place;
use hk_base::{AccountId, Hash256, Items, NoMemory};
use hk_calls::{
    Code, Pair, Refusal, account_of, hash_of, inside, key, read, refuse, write_or_number,
};
use hk_state::{Entry, Key, StateKey, as_key, may_write, reserve};
use std::alloc::Global;
use wa_num::Memory;

/// The bytes that are one unit of an owner's reserve, the last of them begun.
const UNIT_BYTES: usize = 256;

/// The drops of the reserve for each unit.
const UNIT_RESERVE: u64 = 2_000_000;

/// A key of the hook's own account and namespace.
fn own_key(place: &Place, key: Hash256) -> StateKey
    ensures { result ≡ rows.own_key place.now key }
{
    StateKey {
        owner: place.account,
        namespace: place.namespace,
        key,
    }
}

/// The owner that bytes name: no bytes name the hook's own account.
fn owner_of(place: &Place, bytes: &[u8]) -> AccountId
    requires size { (length bytes.now ≡ 0) ⊎ (length bytes.now ≡ 20) }
    ensures { result ≡ rows.owner_of place.now bytes.now }
{
    if bytes.is_empty() {
        place.account
    } else {
        account_of(bytes)
    }
}

/// The namespace that bytes name: no bytes name the hook's own.
fn namespace_of(place: &Place, bytes: &[u8]) -> Hash256
    requires size { (length bytes.now ≡ 0) ⊎ (length bytes.now ≡ 32) }
    ensures { result ≡ rows.namespace_of place.now bytes.now }
{
    if bytes.is_empty() {
        place.namespace
    } else {
        hash_of(bytes)
    }
}

/// Whether a pair is for so many bytes, or for none.
fn is_sized(size: u32, pair: Pair) -> bool
    ensures { result ≡ rows.is_sized size pair }
{
    pair.count == 0 || pair.count == size
}

/// The most bytes that a hook of a version may keep in an entry.
fn most_bytes(version: u16) -> u32
    ensures { result ≡ rows.most_bytes version }
{
    if version == 1 { 2_048 } else { 256 }
}

/// The units of the reserve that bytes are.
fn units(bytes: &[u8]) -> u64
    ensures { result ≡ units (length bytes.now) }
{
    bytes.len().div_ceil(UNIT_BYTES) as u64
}

/// A copy of bytes.
fn copied(alloc: Global, bytes: &[u8]) -> Result<Items<u8>, NoMemory>
    ensures { IfOk result (λ copy. copy ≡ bytes.now) }
{
    let copy = Vec::from_slice(alloc, bytes)?;
    Ok(Items::from_vec(copy))
}

impl Api<'_> {
    /// The bytes at a State key.
    fn state_at(&self, key: &StateKey) -> Option<&[u8]>
        ensures { option_copied result ≡ rows.state_at self.now.draft.entries key.now }
    {
        match self.found(&as_key(key)) {
            Some(Entry::State(bytes)) => Some(bytes.as_slice()),
            _ => None,
        }
    }

    /// The units that bytes are more than what stands at a State key.
    fn added_units(&self, key: &StateKey, bytes: &[u8]) -> u64
        ensures { result ≡ rows.added_units (map.get self.now.draft.entries (as_key key.now)) bytes.now }
    {
        let there = match self.found(&as_key(key)) {
            Some(entry) => units_in(entry),
            None => 0,
        };
        units(bytes).saturating_sub(there)
    }

    /// The balance of an account, 0 where there is none.
    fn balance_at(&self, id: &AccountId) -> u64
        ensures { result ≡ rows.balance_at self.now.draft.entries id.now }
    {
        match self.found(&Key::Account(*id)) {
            Some(Entry::Account { balance, .. }) => *balance,
            _ => 0,
        }
    }

    /// Whether the owner's balance doesn't reach for its reserve and the units that come.
    #[tactic(auto, unfolding(crate::specs::States::lacks_reserve))]
    fn lacks_reserve(&self, owner: &AccountId, added: u64) -> bool
        ensures lacks { result ≡ rows.lacks_reserve self.now.draft.entries owner.now added }
        ensures room { IsFalse result → 1 ≤ added →
            reserve self.now.draft.entries owner.now + unit_reserve * added < 2 ^ 64 }
        ensures fits { ReservesFit self.now.draft.entries }
    {
        let _ = &self.overlay;
        if added == 0 {
            return false;
        }
        let kept = reserve(self.ledger, &self.overlay, owner);
        let more = u128::from(UNIT_RESERVE) * u128::from(added);
        u128::from(self.balance_at(owner)) < u128::from(kept) + more
    }

    /// Puts bytes at a State key, and answers how many they are.
    fn store(&mut self, key: &StateKey, bytes: Items<u8>) -> Result<i64, Refusal>
        ensures { GaveUnless self.old self.new result
            (changing (with_write self.old) (rows.stored self.old key.now bytes)) }
    {
        let added = self.added_units(key, bytes.as_slice());
        refuse(
            self.lacks_reserve(&key.owner, added),
            Code::ReserveInsufficient,
        )?;
        let count = bytes.len() as i64;
        self.write(key, bytes)?;
        Ok(count)
    }

    /// Row 54: writes the bytes at a key of the hook's own.
    pub(crate) fn state(&self, memory: &mut Memory, write: Pair, at: Pair) -> Result<i64, Code>
        ensures { Gave memory.old memory.new result
            (settled memory.old write (rows.state self.now memory.old write at)) }
    {
        inside(memory, write)?;
        let bytes = read(memory, at)?;
        let key = key(bytes)?;
        let own = own_key(&self.place, key);
        let value = self.state_at(&own).ok_or(Code::DoesntExist)?;
        write_or_number(memory, write, value)
    }

    /// Row 55: keeps bytes under a key of the hook's own; no bytes remove what is there.
    pub(crate) fn state_set(
        &mut self,
        memory: &Memory,
        from: Pair,
        at: Pair,
    ) -> Result<i64, Refusal>
        ensures { GaveUnless self.old self.new result
            (changing (with_write self.old) (rows.state_set self.old memory.now from at)) }
    {
        let value = read(memory, from)?;
        let bytes = read(memory, at)?;
        let key = key(bytes)?;
        refuse(from.count > most_bytes(self.place.version), Code::TooBig)?;
        let own = own_key(&self.place, key);
        let value = copied(self.alloc, value)?;
        self.store(&own, value)
    }

    /// Whether the hook may write a key.
    fn may_write_at(&self, key: &StateKey) -> bool
        ensures { result ≡ rows.may_write_at self.now key.now }
    {
        may_write(
            self.ledger,
            &self.place.hash,
            &self.place.account,
            &key.owner,
            &key.namespace,
        )
    }

    /// Row 56: writes the bytes at a key of an account and a namespace.
    pub(crate) fn state_foreign(
        &self,
        memory: &mut Memory,
        write: Pair,
        at: Pair,
        space: Pair,
        of: Pair,
    ) -> Result<i64, Code>
        ensures { Gave memory.old memory.new result
            (settled memory.old write (rows.state_foreign self.now memory.old write at space of)) }
    {
        inside(memory, write)?;
        let bytes = read(memory, at)?;
        let namespace = read(memory, space)?;
        let account = read(memory, of)?;
        let key = key(bytes)?;
        refuse(
            !(is_sized(32, space) && is_sized(20, of)),
            Code::InvalidArgument,
        )?;
        let foreign = StateKey {
            owner: owner_of(&self.place, account),
            namespace: namespace_of(&self.place, namespace),
            key,
        };
        let value = self.state_at(&foreign).ok_or(Code::DoesntExist)?;
        write_or_number(memory, write, value)
    }

    /// Row 57: keeps bytes under a key of an account and a namespace, where a grant allows it; no bytes remove what is
    /// there.
    pub(crate) fn state_foreign_set(
        &mut self,
        memory: &Memory,
        from: Pair,
        at: Pair,
        space: Pair,
        of: Pair,
    ) -> Result<i64, Refusal>
        ensures { GaveUnless self.old self.new result
            (changing (with_write self.old) (rows.state_foreign_set self.old memory.now from at space of)) }
    {
        let value = read(memory, from)?;
        let bytes = read(memory, at)?;
        let namespace = read(memory, space)?;
        let account = read(memory, of)?;
        let key = key(bytes)?;
        refuse(
            !(is_sized(32, space) && is_sized(20, of)),
            Code::InvalidArgument,
        )?;
        refuse(from.count > most_bytes(self.place.version), Code::TooBig)?;
        let foreign = StateKey {
            owner: owner_of(&self.place, account),
            namespace: namespace_of(&self.place, namespace),
            key,
        };
        refuse(!self.may_write_at(&foreign), Code::NotAuthorized)?;
        let value = copied(self.alloc, value)?;
        self.store(&foreign, value)
    }
}

/// The units of the reserve that an entry is.
fn units_in(entry: &Entry) -> u64
    ensures { result ≡ units_in entry.now }
{
    match entry {
        Entry::Install { .. } => 1,
        Entry::State(bytes) => units(bytes.as_slice()),
        _ => 0,
    }
}
