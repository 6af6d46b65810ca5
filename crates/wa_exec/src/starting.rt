//! What a run of an export begins with.
ghost use Rattle.hk_bound.specs.Bounds.{export_bound};
ghost use Rattle.hk_bound.specs.Checks.{IsHeld, entry_in};
ghost use Rattle.wa_exec.specs.Runs.{named};
ghost use Rattle.std.specs.Prelude.{◌≡◌, ◌≤◌, IsTrue, Some, is_some};
ghost use Rattle.wa_exec.specs.Made.{is_there};
ghost use Rattle.wa_machine.specs.Starts.{pages_of};

use hk_bound::{Checked, Entry, Export};
use wa_ops::Limits;

/// What runs of an export need.
pub(crate) fn entry_of(checked: &Checked, which: Export) -> &Entry
    requires there { IsTrue (is_some (entry_in which checked.now)) }
    ensures entry { entry_in which checked.now ≡ Some result.now }
{
    match checked.entry(which) {
        Some(entry) => entry,
        None => unreachable!(),
    }
}

/// The greatest number of turns that a run of an export takes.
pub(crate) fn bound_of(checked: &Checked, which: Export) -> u64
    requires there { IsTrue (is_there which checked.now) }
    ensures bound { export_bound checked.now.version (named which) checked.now.wasm ≡ Some result }
    ensures small { result ≤ 262143 }
{
    match which {
        Export::Hook => checked.bound_hook(),
        Export::Cbak => match checked.bound_cbak() {
            Some(bound) => bound,
            None => unreachable!(),
        },
    }
}

/// How many pages the memory has.
pub(crate) fn pages_of(memories: &[Limits]) -> u32
    ensures pages { result ≡ pages_of memories.now }
{
    match memories {
        [] => 0,
        [limits, ..] => limits.min,
    }
}
