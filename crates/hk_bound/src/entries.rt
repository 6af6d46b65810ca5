ghost use Rattle.hk_bound.specs.Entries.{AreEntry, IsEntry, IsKept};
ghost use Rattle.hk_rules.specs.Guards.{AreGuards};
ghost use Rattle.std.specs.Prelude.{◌≡◌, ◌<◌, ◌≤◌, IfOk, Some, length, slice_get, sum_by};
ghost use Rattle.wa_ops.specs.HookRules.{IsRuled, is_cbak, is_hook};
ghost use Rattle.wa_ops.specs.Soundness.{IsSound};
ghost use Rattle.wa_validate.specs.Untyped.{HasDepths};

use hk_rules::Guards;
use std::alloc::Global;
use wa_ops::{Items, Module, NoMemory, ValueType, matching_ends};
use wa_validate::{Depth, Typed};

/// What a run of an exported function needs of its code.
#[derive(Debug, Drop)]
pub struct Entry {
    /// The function, counted among those that the module defines from 0.
    pub function: u32,
    /// For each of its instructions the place where the region that it opens ends, as `matching_ends` has it.
    pub ends: Items<u32>,
    /// How many locals it has besides its parameter.
    pub locals: u32,
    /// How deep its code goes.
    pub depth: Depth,
}

/// How many locals the runs hold.
fn count_of(runs: &[(u32, ValueType)]) -> u32
    requires few { sum_by (λ run. run.0) runs.now ≤ 4096 }
    ensures count { result ≡ sum_by (λ run. run.0) runs.now }
{
    let mut count = 0;
    for run in runs {
        count += run.0;
    }
    count
}

fn depth_at(depths: &[Depth], place: usize) -> Depth
    requires place { place < length depths.now }
    ensures depth { slice_get depths.now place ≡ Some result }
{
    depths[place]
}

/// What is kept of a function.
fn function_entry(
    alloc: Global,
    module: &Module,
    typed: &Typed,
    function: u32,
) -> Result<Entry, NoMemory>
    requires sound { IsSound «module».now }
    requires ruled { IsRuled «module».now }
    requires depths { HasDepths «module».now typed.now.depths }
    requires function { function < length «module».now.codes }
    ensures function { IfOk result (λ kept. kept.function ≡ function) }
    ensures kept { IfOk result (IsKept «module».now) }
{
    let place = function as usize;
    let code = &module.codes.as_slice()[place];
    let depth = depth_at(typed.depths.as_slice(), place);
    let ends = matching_ends(alloc, code.ops.as_slice())?;
    Ok(Entry {
        function,
        ends: Items::from_vec(ends),
        locals: count_of(code.locals.as_slice()),
        depth,
    })
}

pub(crate) fn hook_entry(
    alloc: Global,
    module: &Module,
    guards: &Guards,
    typed: &Typed,
) -> Result<Entry, NoMemory>
    requires sound { IsSound «module».now }
    requires ruled { IsRuled «module».now }
    requires guards { AreGuards «module».now guards.now }
    requires depths { HasDepths «module».now typed.now.depths }
    ensures entry { IfOk result (IsEntry «module».now is_hook) }
{
    function_entry(alloc, module, typed, guards.hook)
}

pub(crate) fn cbak_entry(
    alloc: Global,
    module: &Module,
    guards: &Guards,
    typed: &Typed,
) -> Result<Option<Entry>, NoMemory>
    requires sound { IsSound «module».now }
    requires ruled { IsRuled «module».now }
    requires guards { AreGuards «module».now guards.now }
    requires depths { HasDepths «module».now typed.now.depths }
    ensures entry { IfOk result (AreEntry «module».now is_cbak) }
{
    match guards.cbak {
        Some(function) => {
            let kept = function_entry(alloc, module, typed, function)?;
            Ok(Some(kept))
        }
        None => Ok(None),
    }
}
