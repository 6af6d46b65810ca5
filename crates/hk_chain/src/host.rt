//! The host of a hook's run.
ghost use Rattle.std.specs.Prelude.{◌≡◌, true};
ghost use Rattle.hk_state.specs.Writes.{with_writes};
ghost use Rattle.hk_draft.specs.Drafted.{draft_of};
ghost use Rattle.hk_api.specs.Fits.{ReservesFit};
ghost use Rattle.hk_chain.specs.Calls.{hook_answers, hook_answers_length};

use hk_api::{Api, ChainState};
use hk_api_pure::pure_call;
use hk_base::Items;
use hk_emit::Emission;
use hk_state::Overlay;
use std::alloc::Global;
use std::marker::Model;
use wa_num::{Host, Memory};
use wa_ops::{CallNo, NoMemory};

/// The calls of a hook: those that need no ledger, and those of `Api`.
#[derive(Drop)]
pub struct HookHost<'a> {
    api: Api<'a>,
    alloc: Global,
}

impl<'a> Model for HookHost<'a> {
    ghost use Rattle.hk_api.specs.HostState.{HostState, coded_host};

    ghost Value = { HostState };

    ghost coded = { coded_host };

    ghost view = { λ h. h.api };
}

impl<'a> HookHost<'a> {
    pub fn new(alloc: Global, api: Api<'a>) -> HookHost<'a>
        ensures api { result ≡ api.entry }
    {
        HookHost { api, alloc }
    }

    /// What the run leaves to the next one.
    pub fn finish(self) -> (Overlay, Items<Emission>, ChainState)
        ensures draft { draft_of self.entry.before result.0 result.1 ≡ self.entry.draft }
        ensures chain { result.2 ≡ self.entry.chain }
        ensures reserves { ReservesFit (with_writes self.entry.before result.0) }
    {
        self.api.finish()
    }
}

impl<'a> Host for HookHost<'a> {
    ghost answer = { λ h row arguments memory. (hook_answers h row arguments memory).answer };

    ghost memory_after = { λ h row arguments memory. (hook_answers h row arguments memory).memory };

    ghost state_after = { λ h row arguments memory. (hook_answers h row arguments memory).after };

    ghost may_want = { λ _. true };

    ghost keeps_length = { hook_answers_length };

    #[tactic(auto, unfolding(crate::specs::Calls::hook_answers))]
    fn call(
        &mut self,
        number: CallNo,
        arguments: &[u64],
        memory: &mut Memory,
    ) -> Result<i64, NoMemory> {
        if number.0 < 27 {
            return pure_call(self.alloc, number, arguments, memory);
        }
        self.api.call(number, arguments, memory)
    }
}
