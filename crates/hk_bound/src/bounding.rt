ghost use Rattle.hk_bound.specs.Bounds.{bound_of};
ghost use Rattle.hk_rules.specs.Guards.{AreGuards};
ghost use Rattle.std.specs.Prelude.{◌≡◌, ◌<◌, ◌≤◌, Some, length};
ghost use Rattle.wa_ops.specs.Soundness.{IsSound};

use crate::weighing::weigh;
use hk_rules::Guards;
use wa_ops::Module;

/// The greatest number of turns that a run of this defined function takes, as version 0 counts it.
pub fn bound(module: &Module, guards: &Guards, func: u32) -> u64
    requires sound { IsSound «module».now }
    requires guards { AreGuards «module».now guards.now }
    requires function { func < length «module».now.codes }
    ensures bound { bound_of 0 «module».now func ≡ Some result }
{
    bound_at(module, guards, func, 0)
}

/// The greatest number of turns that a run of this defined function takes, as this version counts it: from version 1 on
/// an `if` costs its dearer arm alone.
pub fn bound_at(module: &Module, guards: &Guards, func: u32, version: u16) -> u64
    requires sound { IsSound «module».now }
    requires guards { AreGuards «module».now guards.now }
    requires function { func < length «module».now.codes }
    requires known { version ≤ 1 }
    ensures bound { bound_of version «module».now func ≡ Some result }
{
    let code = &module.codes.as_slice()[func as usize];
    weigh(
        code.ops.as_slice(),
        &guards.functions.as_slice()[func as usize],
        version,
    )
}
