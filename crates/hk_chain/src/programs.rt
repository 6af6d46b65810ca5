//! The checked hooks, by the hashes of their Definitions.
ghost use Rattle.std.specs.Prelude.{◌≡◌, ◌≤◌, ◌∷◌, ℕ, IfOk, IsSome, OnErr, OnOk, option_map, Some};
ghost use Rattle.std.specs.FinMap as map;
ghost use Rattle.hk_bound.specs.Checks.{Holds};
ghost use Rattle.hk_chain.specs.Programs.{AreOf, IsDefined, StayKept};
ghost use Rattle.hk_state.specs.Entries.{Entries};
ghost use Rattle.hk_state.specs.declared.key.Key.TheVariants as key;

use hk_base::{Hash256, NoMemory};
use hk_bound::{Checked, check_at};
use hk_state::Key;
use std::alloc::{AllocError, Global};
use std::collections::BTreeMap;
use std::marker::Model;

/// Checked hooks by the hashes of their Definitions, each filled in when it is first needed.
///
/// Contracts see a finite map from the keys of Definitions.
#[derive(Drop)]
pub struct Programs {
    kept: BTreeMap<Key, Checked>,
    alloc: Global,
}

impl Model for Programs {
    ghost use Rattle.std.specs.FinMap as map;
    ghost use Rattle.hk_chain.specs.Programs.{Kept, coded_kept};

    ghost Value = { Kept };

    ghost coded = { coded_kept };

    ghost view = { λ p. map.from_entries p.kept.entries };
}

impl Programs {
    /// Nothing is kept. It takes no memory.
    pub fn new(alloc: Global) -> Programs
        ensures empty { result ≡ map.empty }
    {
        Programs {
            kept: BTreeMap::new(alloc),
            alloc,
        }
    }

    /// What is kept there.
    fn at(&self, key: &Key) -> Option<&Checked>
        ensures found { option_map (λ checked. checked.now) result ≡ map.get self.now key.now }
    {
        self.kept.get(key)
    }

    /// Keeps a checked hook there.
    fn keep(&mut self, key: Key, checked: Checked) -> Result<(), NoMemory>
        ensures ok { OnOk result (self.new ≡ map.insert self.old key checked) }
        ensures err { OnErr result (self.new ≡ self.old) }
    {
        match self.kept.insert(key, checked) {
            Ok(_) => Ok(()),
            Err(_) => Err(AllocError),
        }
    }

    /// Keeps the check of the code under a hash, where nothing is kept there yet.
    ///
    /// # Errors
    ///
    /// `NoMemory`, and then nothing more is kept.
    pub(crate) fn fill(&mut self, hash: &Hash256, code: &[u8], version: u16) -> Result<(), NoMemory>
        requires known { version ≤ 1 }
        ensures held { (m : Entries) → IsDefined m hash.now code.now version → AreOf m self.old → AreOf m self.new }
        ensures stays { StayKept self.old self.new }
        ensures there { OnOk result (IsSome (map.get self.new (key.Definition hash.now))) }
        ensures err { OnErr result (self.new ≡ self.old) }
    {
        let key = Key::Definition(*hash);
        if self.at(&key).is_some() {
            return Ok(());
        }
        let checked = check_code(self.alloc, code, version)?;
        self.keep(key, checked)
    }

    /// What is kept under a hash.
    pub(crate) fn of(&self, hash: &Hash256) -> &Checked
        requires there { IsSome (map.get self.now (key.Definition hash.now)) }
        ensures found { map.get self.now (key.Definition hash.now) ≡ Some result.now }
    {
        match self.at(&Key::Definition(*hash)) {
            Some(checked) => checked,
            None => unreachable!(),
        }
    }
}

/// The check of code that is accepted: it is refused for want of memory alone.
fn check_code(alloc: Global, code: &[u8], version: u16) -> Result<Checked, NoMemory>
    requires known { version ≤ 1 }
    ensures holds { IfOk result (Holds version code.now) }
{
    match check_at(alloc, code, version) {
        Ok(checked) => Ok(checked),
        Err(_) => Err(AllocError),
    }
}
