ghost use Rattle.wa_ops.specs.Functions.{entry_of};
ghost use Rattle.std.specs.Prelude.{◌≡◌};
ghost use Rattle.wa_ops.specs.HookRules as rule;

use crate::exports::{is_cbak, is_hook};
use wa_ops::{CallNo, Items, ModuleExport};

/// What a module that meets the rules exports and imports.
#[derive(Debug, Drop)]
pub struct Guards {
    /// The function `hook`, counted among the defined ones from 0.
    pub hook: u32,
    /// The function `cbak`, where there is one, counted so too.
    pub cbak: Option<u32>,
    /// The row of each import.
    pub imports: Items<CallNo>,
    /// The loops of each function that the module defines, in order.
    pub functions: Items<FunctionGuards>,
}

/// The loops and arms of a function.
#[derive(Debug, Drop)]
pub struct FunctionGuards {
    /// All loops, in order of place.
    pub loops: Items<LoopGuard>,
    /// For each instruction, the number of the innermost loop to whose body it belongs.
    pub innermost: Items<Option<u32>>,
    /// For each instruction, what version 1 of the bound doesn't count: at an `if` with two arms what the cheaper one
    /// costs.
    pub spared: Items<u32>,
}

/// A loop: the place of its instruction `loop`, and the two numbers of its guard, unsigned.
#[derive(Clone, Copy, Debug, PartialEq, Eq)]
pub struct LoopGuard {
    pub op: u32,
    pub id: u32,
    pub limit: u32,
}

/// The function that is exported as `hook`, where so many are imported.
pub(crate) fn hook_of(imported: u32, exports: &[ModuleExport]) -> Option<u32>
    ensures hook { result ≡ entry_of imported rule.is_hook exports.now }
{
    for export in exports {
        if is_hook(export) {
            return Some(export.index.saturating_sub(imported));
        }
    }
    None
}

/// The function that is exported as `cbak`, where so many are imported.
pub(crate) fn cbak_of(imported: u32, exports: &[ModuleExport]) -> Option<u32>
    ensures cbak { result ≡ entry_of imported rule.is_cbak exports.now }
{
    for export in exports {
        if is_cbak(export) {
            return Some(export.index.saturating_sub(imported));
        }
    }
    None
}
