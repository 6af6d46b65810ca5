ghost use Rattle.hk_bound.specs.Checks.{IsHeld, entry_in};
ghost use Rattle.std.specs.Prelude.{◌≡◌, option_map};

use crate::entries::Entry;
use crate::fault::Export;
use hk_base::Hash256;
use hk_rules::Guards;
use std::marker::Model;
use wa_ops::Module;
use wa_validate::Typed;

/// A hook's code that was checked: its version and its module, which is spelled, ruled, typed and bounded, its guards,
/// depths, hash and bounds, and what runs of its exports need.
#[derive(Debug, Drop)]
pub struct Checked {
    pub(crate) version: u16,
    pub(crate) module: Module,
    pub(crate) guards: Guards,
    pub(crate) typed: Typed,
    pub(crate) hash: Hash256,
    pub(crate) bound_hook: u64,
    pub(crate) bound_cbak: Option<u64>,
    pub(crate) hook_entry: Entry,
    pub(crate) cbak_entry: Option<Entry>,
}

impl Model for Checked {
    ghost use Rattle.hk_bound.specs.Checks.{Held, IsHeld};

    ghost Value = { Held };

    ghost view = { λ c.
        record {
          version = c.version;
          wasm = c.«module»;
          guards = c.guards;
          typed = c.typed;
          hash = c.hash;
          bound_hook = c.bound_hook;
          bound_cbak = c.bound_cbak;
          hook_entry = c.hook_entry;
          cbak_entry = c.cbak_entry;
        } };

    ghost invariant = { λ c.
        IsHeld (record {
          version = c.version;
          wasm = c.«module»;
          guards = c.guards;
          typed = c.typed;
          hash = c.hash;
          bound_hook = c.bound_hook;
          bound_cbak = c.bound_cbak;
          hook_entry = c.hook_entry;
          cbak_entry = c.cbak_entry;
        }) };
}

impl Checked {
    /// The version of the machine, 0 or 1, in which the code was checked.
    pub fn version(&self) -> u16
        ensures version { result ≡ self.now.version }
        ensures held { IsHeld self.now }
    {
        self.version
    }

    /// What runs of an export need, where there is such an export.
    pub fn entry(&self, which: Export) -> Option<&Entry>
        ensures entry { option_map (λ entry. entry.now) result ≡ entry_in which self.now }
        ensures held { IsHeld self.now }
    {
        match which {
            Export::Hook => Some(&self.hook_entry),
            Export::Cbak => self.cbak_entry.as_ref(),
        }
    }

    /// The greatest number of turns that a run of `hook` takes.
    pub fn bound_hook(&self) -> u64
        ensures bound { result ≡ self.now.bound_hook }
        ensures held { IsHeld self.now }
    {
        self.bound_hook
    }

    /// The greatest number of turns that a run of `cbak` takes, where there is one.
    pub fn bound_cbak(&self) -> Option<u64>
        ensures bound { result ≡ self.now.bound_cbak }
        ensures held { IsHeld self.now }
    {
        self.bound_cbak
    }

    /// The first half of the SHA-512 of the code, in version 1 of the bytes 00 01 and the code.
    pub fn hash(&self) -> Hash256
        ensures hash { result ≡ self.now.hash }
        ensures held { IsHeld self.now }
    {
        self.hash
    }

    pub fn module(&self) -> &Module
        ensures is { result.now ≡ self.now.wasm }
        ensures held { IsHeld self.now }
    {
        &self.module
    }

    pub fn typed(&self) -> &Typed
        ensures typed { result.now ≡ self.now.typed }
        ensures held { IsHeld self.now }
    {
        &self.typed
    }

    pub fn guards(&self) -> &Guards
        ensures guards { result.now ≡ self.now.guards }
        ensures held { IsHeld self.now }
    {
        &self.guards
    }
}
