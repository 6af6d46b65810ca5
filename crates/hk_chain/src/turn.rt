//! One hook's turn.
ghost use Rattle.std.specs.Prelude.{◌≡◌, ℕ, List, IfOk, IsTrue, Some};
ghost use Rattle.hk_bound.specs.Checks.{Holds};
ghost use Rattle.wa_exec.specs.Made.{is_there};
ghost use Rattle.wa_exec.specs.Runs.{named};
ghost use Rattle.wa_machine.specs.Runs.{IsRun};
ghost use Rattle.hk_chain.specs.Calls.{hook_meaning};
ghost use Rattle.hk_chain.specs.Meets.{IsPlay, PlayedFits, WorkFits, passing};
ghost use Rattle.hk_chain.specs.Plays.{place_of, run_bounded, run_turn, stored_bound};
ghost use Rattle.hk_chain.specs.Programs.{AreOf, AreStored, IsReady, StayKept};

use crate::host::HookHost;
use crate::programs::Programs;
use crate::work::{HookRun, Played, Work};
use hk_api::{Api, Place, Setting, calls_lead};
use hk_base::{AccountId, Hash256, NoMemory};
use hk_bound::{Checked, Export};
use hk_state::{Entry, Key, Ledger};
use std::alloc::Global;
use wa_exec::{Ended, Instance, code_run_is};

/// Which hook is run, where, and how.
#[derive(Clone, Copy, Debug)]
pub(crate) struct Turn {
    pub account: AccountId,
    pub position: u8,
    pub hash: Hash256,
    pub namespace: Hash256,
    pub which: Export,
    pub argument: u32,
}

/// A turn, by the Definition of its hash.
#[tactic(auto, unfolding(crate::specs::Plays::run_turn))]
pub(crate) fn run_turn(
    alloc: Global,
    programs: &mut Programs,
    ledger: &Ledger,
    setting: &Setting,
    turn: &Turn,
    work: Work,
) -> Result<Played, NoMemory>
    requires fits { WorkFits setting.now ledger.now.entries work }
    requires stored { AreStored ledger.now.entries }
    requires held { AreOf ledger.now.entries programs.old }
    ensures held { AreOf ledger.now.entries programs.new }
    ensures stays { StayKept programs.old programs.new }
    ensures played { IfOk result (IsPlay ledger.now.entries (passing ledger.now.entries work)
        (run_turn setting.now ledger.now.next ledger.now.entries turn.now (passing ledger.now.entries work))) }
    ensures fits { IfOk result (PlayedFits setting.now ledger.now.entries) }
{
    match ledger.get(&Key::Definition(turn.hash)) {
        Some(
            Entry::Definition {
                code,
                version,
                bound_hook,
                bound_cbak,
            },
        ) => match stored_bound(turn.which, *bound_hook, *bound_cbak) {
            None => Ok(Played::Idle(work)),
            Some(bound) => {
                programs.fill(&turn.hash, code.as_slice(), *version)?;
                let checked = programs.of(&turn.hash);
                let place = place_of(turn, *version, *bound_cbak);
                run_checked(alloc, checked, ledger, setting, &place, turn, bound, work)
            }
        },
        _ => Ok(Played::Idle(work)),
    }
}

/// The bound of an export, where it is there.
fn stored_bound(which: Export, bound_hook: u64, bound_cbak: Option<u64>) -> Option<u64>
    ensures bound { result ≡ stored_bound which bound_hook bound_cbak }
{
    match which {
        Export::Hook => Some(bound_hook),
        Export::Cbak => bound_cbak,
    }
}

/// Where the turn's hook runs.
fn place_of(turn: &Turn, version: u16, bound_cbak: Option<u64>) -> Place
    ensures place { result ≡ place_of turn.now version bound_cbak }
{
    Place {
        account: turn.account,
        position: turn.position,
        hash: turn.hash,
        namespace: turn.namespace,
        callback: matches!(turn.which, Export::Cbak),
        has_cbak: bound_cbak.is_some(),
        version,
    }
}

/// Runs the turn's export of a checked hook there.
fn run_checked(
    alloc: Global,
    checked: &Checked,
    ledger: &Ledger,
    setting: &Setting,
    place: &Place,
    turn: &Turn,
    bound: u64,
    work: Work,
) -> Result<Played, NoMemory>
    requires fits { WorkFits setting.now ledger.now.entries work }
    requires ready { IsReady place.now.version turn.now.which bound checked.now }
    ensures played { IfOk result (λ played. (code : List ℕ) → Holds place.now.version code checked.now →
        IsPlay ledger.now.entries (passing ledger.now.entries work)
        (run_bounded setting.now ledger.now.next ledger.now.entries place.now (passing ledger.now.entries work) code
        turn.now.which turn.now.argument (Some bound)) played) }
    ensures fits { IfOk result (PlayedFits setting.now ledger.now.entries) }
{
    code_run_is::<HookHost<'_>>();
    calls_lead();
    let Work {
        overlay,
        emissions,
        chain,
    } = work;
    let api = Api::new(alloc, setting, place, ledger, overlay, emissions, chain)?;
    let mut host = HookHost::new(alloc, api);
    let ended = run_export(alloc, checked, turn.which, turn.argument, &mut host)?;
    let (overlay, emissions, chain) = host.finish();
    let work = Work {
        overlay,
        emissions,
        chain,
    };
    let run = HookRun {
        outcome: ended.outcome,
        count: ended.count,
        bound,
    };
    Ok(Played::Ran(work, run))
}

/// Runs an export over a host.
fn run_export(
    alloc: Global,
    checked: &Checked,
    which: Export,
    argument: u32,
    host: &mut HookHost<'_>,
) -> Result<Ended, NoMemory>
    requires there { IsTrue (is_there which checked.now) }
    ensures ends { IfOk result (λ ended. IsRun hook_meaning checked.now.wasm (named which) argument host.old
        ended.outcome ended.count host.new) }
{
    let instance = Instance::new(alloc, checked, which, argument)?;
    instance.run(checked, host)
}
