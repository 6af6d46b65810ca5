//! The run of one hook.
ghost use Rattle.std.specs.Prelude.{IfOk};
ghost use Rattle.wa_machine.specs.Runs.{IsRun};
ghost use Rattle.wa_ops.specs.HookRules.{is_hook};
ghost use Rattle.hk_api.specs.Fits.{IsFit};
ghost use Rattle.hk_api.specs.HostState.{HostState};
ghost use Rattle.hk_chain.specs.Calls.{hook_meaning};
ghost use Rattle.hk_alone.specs.Context as context;

use crate::context::{ledger, place, setting};
use hk_api::{Api, ChainState, Place, Setting};
use hk_base::{Items, NoMemory};
use hk_bound::Checked;
use hk_chain::HookHost;
use hk_reading::reads_one_way;
use hk_state::{Ledger, Overlay};
use std::alloc::Global;
use wa_exec::{Ended, Export, Instance};

/// Runs `hook` of a checked code once with argument 0, over the calls of hooks, on a ledger of its own of which nothing
/// is kept.
///
/// # Errors
///
/// `NoMemory` where memory ran out.
pub fn run_alone(alloc: Global, checked: &Checked, code: &[u8]) -> Result<Ended, NoMemory>
    ensures run { IfOk result (λ ended. (after : HostState) ×
        IsRun hook_meaning checked.now.wasm is_hook 0 (context.host code.now checked.now) ended.outcome ended.count
        after) }
{
    reads_one_way();
    let setting = setting(alloc)?;
    let ledger = ledger(alloc, checked, code)?;
    let place = place(checked);
    run_on(alloc, checked, &setting, &place, &ledger)
}

/// Runs `hook` of a checked code once with argument 0, in this setting and place.
fn run_on(
    alloc: Global,
    checked: &Checked,
    setting: &Setting,
    place: &Place,
    ledger: &Ledger,
) -> Result<Ended, NoMemory>
    requires fits { IsFit setting.now ledger.now.entries ledger.now.entries }
    ensures run { IfOk result (λ ended. (after : HostState) × IsRun hook_meaning checked.now.wasm is_hook 0
        (context.first_host setting.now place.now ledger.now) ended.outcome ended.count after) }
{
    let chain = ChainState {
        skipped: Items::new(alloc),
        overrides: Items::new(alloc),
    };
    let overlay = Overlay::new(alloc);
    let api = Api::new(
        alloc,
        setting,
        place,
        ledger,
        overlay,
        Items::new(alloc),
        chain,
    )?;
    let mut host = HookHost::new(alloc, api);
    let instance = Instance::new(alloc, checked, Export::Hook, 0)?;
    instance.run(checked, &mut host)
}
