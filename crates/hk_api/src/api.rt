//! The host of one execution: the ledger as it is so far, and what the execution has of its own.
ghost use Rattle.std.specs.Prelude.{◌≡◌, OnErr, OnOk, IfOk, IsOk};
ghost use Rattle.std.specs.Option.{option_copied};
ghost use Rattle.std.specs.FinMap as map;
ghost use Rattle.hk_state.specs.Writes.{with_writes};
ghost use Rattle.hk_draft.specs.Draft.{write_state};
ghost use Rattle.hk_draft.specs.Drafted.{draft_of};
ghost use Rattle.hk_api.specs.Fits.{ReservesFit, IsFit};
ghost use Rattle.hk_api.specs.HostState.{begun, with_state};

use hk_api_parts::{ChainState, Emitting, Place, Setting};
use hk_base::{Items, NoMemory};
use hk_emit::Emission;
use hk_slots::Slots;
use hk_state::{Entry, Key, Ledger, Overlay, StateKey, as_key};
use std::alloc::Global;
use std::marker::Model;

/// What a hook's calls read and change. The ledger is borrowed as the event began; what is written stands in an
/// overlay.
///
/// Contracts see the ledger so far as a draft.
#[derive(Drop)]
pub struct Api<'a> {
    pub(crate) setting: &'a Setting,
    pub(crate) place: Place,
    pub(crate) ledger: &'a Ledger,
    pub(crate) overlay: Overlay,
    pub(crate) emissions: Items<Emission>,
    pub(crate) chain: ChainState,
    pub(crate) slots: Slots,
    pub(crate) emitting: Emitting,
    pub(crate) alloc: Global,
}

impl<'a> Model for Api<'a> {
    ghost use Rattle.hk_state.specs.Writes.{with_writes};
    ghost use Rattle.hk_draft.specs.Drafted.{draft_of};
    ghost use Rattle.hk_api.specs.Fits.{IsFit};
    ghost use Rattle.hk_api.specs.HostState.{HostState, coded_host};

    ghost Value = { HostState };

    ghost coded = { coded_host };

    ghost view = { λ a. record {
      setting = a.setting.now;
      place = a.place;
      before = a.ledger.now.entries;
      next = a.ledger.now.next;
      draft = draft_of a.ledger.now.entries a.overlay a.emissions;
      chain = a.chain;
      slots = a.slots;
      emitting = a.emitting;
    } };

    ghost invariant = { λ a.
        IsFit a.setting.now a.ledger.now.entries (with_writes a.ledger.now.entries a.overlay) };
}

impl<'a> Api<'a> {
    /// The host of an execution that begins: over the ledger with the overlay's writes, behind these emissions, with
    /// what earlier hooks of the account passed on. Its slots are empty, and nothing is reserved.
    pub fn new(
        alloc: Global,
        setting: &'a Setting,
        place: &Place,
        ledger: &'a Ledger,
        overlay: Overlay,
        emissions: Items<Emission>,
        chain: ChainState,
    ) -> Result<Api<'a>, NoMemory>
        requires fits { IsFit setting.now ledger.now.entries (with_writes ledger.now.entries overlay) }
        ensures begun { IfOk result (λ api.
            api ≡ begun setting.now place.now ledger.now (draft_of ledger.now.entries overlay emissions) chain) }
        ensures never { IsOk result }
    {
        Ok(Api {
            setting,
            place: *place,
            ledger,
            overlay,
            emissions,
            chain,
            slots: Slots::new(alloc),
            emitting: Emitting {
                reserved: 0,
                emitted: 0,
                drawn: 0,
                unused: Items::new(alloc),
                ledger_drawn: 0,
            },
            alloc,
        })
    }

    /// What the execution leaves to the next one: the writes, the emissions, and what it passes on.
    pub fn finish(self) -> (Overlay, Items<Emission>, ChainState)
        ensures draft { draft_of self.entry.before result.0 result.1 ≡ self.entry.draft }
        ensures chain { result.2 ≡ self.entry.chain }
        ensures reserves { ReservesFit (with_writes self.entry.before result.0) }
    {
        let Api {
            overlay,
            emissions,
            chain,
            ..
        } = self;
        (overlay, emissions, chain)
    }

    /// The entry at a key of the ledger so far.
    pub(crate) fn found(&self, key: &Key) -> Option<&Entry>
        ensures entry { option_copied result ≡ map.get self.now.draft.entries key.now }
    {
        self.overlay.get(self.ledger, key)
    }

    /// Puts bytes at a State key, and lists it. No bytes remove the entry.
    pub(crate) fn write(&mut self, key: &StateKey, bytes: Items<u8>) -> Result<(), NoMemory>
        requires reserves { ReservesFit (write_state key.now bytes self.old.draft).entries }
        ensures ok { OnOk result (self.new ≡ with_state self.old key.now bytes) }
        ensures err { OnErr result (self.new ≡ self.old) }
    {
        let at = as_key(key);
        if bytes.is_empty() {
            self.overlay.remove(at)
        } else {
            self.overlay.put(at, Entry::State(bytes))
        }
    }
}
