ghost use Rattle.hk_rules.specs.Answers.{Judges};
ghost use Rattle.hk_rules.specs.Guards.{AreGuards};
ghost use Rattle.hk_rules.specs.Imports.{AreRows};
ghost use Rattle.wa_ops.specs.Contexts.{callees};
ghost use Rattle.std.specs.List.{list_any};
ghost use Rattle.std.specs.Prelude.{◌≡◌, ◌≢◌, ◌<◌, ◌^◌, IfErr, IfOk, OnOk, length, true};
ghost use Rattle.wa_ops.specs.HookRules as rule;
ghost use Rattle.wa_ops.specs.Soundness.{IsSound};

use crate::codes::{check_guards, check_instructions};
use crate::exports::{check_links, has_repeats};
use crate::floats::check_floats;
use crate::guards::{Guards, cbak_of, hook_of};
use crate::imports::check_imports;
use crate::loops::functions_of;
use crate::sections::check_sections;
use std::alloc::Global;
use wa_ops::{CallNo, Items, Module, NoMemory, RuleFault};

/// The rules behind those about imports, where these are their rows.
fn check_others(module: &Module, rows: &[CallNo], repeats: bool) -> Result<(), RuleFault>
    requires sound { IsSound «module».now }
    requires repeats { repeats ≡ rule.has_repeats «module».now.exports }
    requires counted { length rows.now < 2 ^ 32 }
    ensures rules { Judges (rule.other_rules (length rows.now) (callees rows.now) «module».now) result }
{
    check_sections(module)?;
    check_links(rows.len(), module, repeats)?;
    check_instructions(module, rows)?;
    check_guards(module, rows)
}

/// The rows of the imports, as they stand in the module.
fn import_rows(alloc: Global, module: &Module) -> Result<Items<CallNo>, RuleFault>
    requires sound { IsSound «module».now }
    ensures rows { IfOk result (λ rows. AreRows «module».now.types «module».now.imports rows) }
    ensures first { IfErr result (λ found.
        found ≢ RuleFault.NoMemory → rule.IsFirst (rule.import_rules «module».now.types «module».now.imports) found) }
{
    check_imports(alloc, module.types.as_slice(), module.imports.as_slice())
}

/// What is kept of the module, where these are the rows of its imports.
fn guards_of(alloc: Global, module: &Module, rows: Items<CallNo>) -> Result<Guards, NoMemory>
    requires sound { IsSound «module».now }
    requires counted { length rows < 2 ^ 32 }
    requires rows { AreRows «module».now.types «module».now.imports rows }
    requires hook { list_any rule.is_hook «module».now.exports ≡ true }
    ensures guards { IfOk result (λ guards. AreGuards «module».now guards) }
{
    let imported = rows.len() as u32;
    let exports = module.exports.as_slice();
    let functions = functions_of(alloc, module.codes.as_slice())?;
    Ok(Guards {
        hook: hook_of(imported, exports).unwrap_or(0),
        cbak: cbak_of(imported, exports),
        imports: rows,
        functions,
    })
}

/// Judges whether a module is a hook: the fault is that of the first rule that is broken anywhere, at its least place.
///
/// NoMemory comes where the rows of the imports, the names of the exports or the loops found none.
pub fn rules(alloc: Global, module: &Module) -> Result<Guards, RuleFault>
    requires sound { IsSound «module».now }
    ensures ruled { OnOk result (rule.IsRuled «module».now) }
    ensures first { IfErr result
        (λ found. found ≢ RuleFault.NoMemory → rule.IsFirst (rule.hook_rules «module».now) found) }
    ensures guards { IfOk result (λ guards. AreGuards «module».now guards) }
{
    check_floats(module)?;
    let rows = import_rows(alloc, module)?;
    let repeats = has_repeats(alloc, module.exports.as_slice())?;
    check_others(module, rows.as_slice(), repeats)?;
    Ok(guards_of(alloc, module, rows)?)
}
