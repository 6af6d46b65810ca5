ghost use Rattle.hk_rules.specs.Answers.{Judges};
ghost use Rattle.std.specs.List.{list_any};
ghost use Rattle.std.specs.Option.{option_map_or};
ghost use Rattle.std.specs.Prelude.{◌≡◌, ◌||◌, ◌<◌, ◌^◌, ◌∷◌, [], IfErr, IfOk, false, is_some, length, not};
ghost use Rattle.wa_ops.specs.Contexts.{function_type, has_items};
ghost use Rattle.wa_ops.specs.HookRules as rule;
ghost use Rattle.wa_ops.specs.Soundness.{IsSound};
ghost use Rattle.wa_ops.specs.declared.op.ValueType.TheVariants.{I32, I64};
ghost use Rattle.wa_ops.specs.declared.rule_fault.RuleFault.TheVariants as fault;

use crate::finding::check_items;
use crate::imports::is_function_type;
use crate::segments::Segments;
use std::alloc::Global;
use std::collections::BTreeSet;
use wa_ops::{Element, Items, Module, ModuleExport, RuleFault, ValueType};

/// Whether the function is exported as `hook`.
pub(crate) fn is_hook(export: &ModuleExport) -> bool
    ensures hook { result ≡ rule.is_hook export.now }
{
    export.name.as_slice() == b"hook".as_slice()
}

/// Whether the function is exported as `cbak`.
pub(crate) fn is_cbak(export: &ModuleExport) -> bool
    ensures cbak { result ≡ rule.is_cbak export.now }
{
    export.name.as_slice() == b"cbak".as_slice()
}

fn has_hook(exports: &[ModuleExport]) -> bool
    ensures hook { result ≡ list_any rule.is_hook exports.now }
{
    exports.iter().any(is_hook)
}

/// Whether two exports have one name. The names so far stand in a sorted set.
pub(crate) fn has_repeats(alloc: Global, exports: &[ModuleExport]) -> Result<bool, RuleFault>
    ensures repeats { IfOk result (λ found. found ≡ rule.has_repeats exports.now) }
    ensures fault { IfErr result (λ found. found ≡ RuleFault.NoMemory) }
{
    let mut met = BTreeSet::new(alloc);
    for export in exports {
        let is_new = met.insert(export.name.as_slice())?;
        if !is_new {
            return Ok(true);
        }
    }
    Ok(false)
}

/// How many of this kind there are, where so many functions are imported.
fn count_of_kind(imported: usize, module: &Module, kind: u8) -> usize
    requires imported { imported < 2 ^ 32 }
    requires sound { IsSound «module».now }
    ensures count { result ≡ rule.count_of_kind imported «module».now kind }
{
    match kind {
        0 => imported + module.functions.len(),
        1 => module.tables.len(),
        2 => module.memories.len(),
        _ => module.globals.len(),
    }
}

/// Whether the function with this number takes an i32 and gives an i64.
fn is_entry_type(module: &Module, func: usize) -> bool
    ensures entry { result
        ≡ option_map_or (rule.is_function_type (I32 ∷ []) I64) (function_type «module».now func) false }
{
    let Some(index) = module.functions.as_slice().get(func) else {
        return false;
    };
    match module.types.as_slice().get(*index as usize) {
        Some(kind) => is_function_type(&[ValueType::I32], ValueType::I64, kind),
        None => false,
    }
}

fn is_entry(imported: usize, module: &Module, export: &ModuleExport) -> bool
    ensures entry { result ≡ rule.is_entry imported «module».now export.now }
{
    let index = export.index as usize;
    export.kind == 0 && imported <= index && is_entry_type(module, index - imported)
}

fn is_bad_export(imported: usize, module: &Module, export: &ModuleExport) -> bool
    requires imported { imported < 2 ^ 32 }
    requires sound { IsSound «module».now }
    ensures bad { result ≡ rule.is_bad_export imported «module».now export.now }
{
    if count_of_kind(imported, module, export.kind) <= export.index as usize {
        return true;
    }
    if is_hook(export) || is_cbak(export) {
        !is_entry(imported, module, export)
    } else {
        export.kind == 0
    }
}

fn has_bad_export(imported: usize, module: &Module, exports: &[ModuleExport]) -> bool
    requires imported { imported < 2 ^ 32 }
    requires sound { IsSound «module».now }
    ensures bad { result ≡ list_any (rule.is_bad_export imported «module».now) exports.now }
{
    exports
        .iter()
        .any(|export| is_bad_export(imported, module, export))
}

fn has_bad_exports(imported: usize, module: &Module, repeats: bool) -> bool
    requires imported { imported < 2 ^ 32 }
    requires repeats { repeats ≡ rule.has_repeats «module».now.exports }
    requires sound { IsSound «module».now }
    ensures bad { result
        ≡ (rule.has_repeats «module».now.exports ||
        (not (list_any rule.is_hook «module».now.exports) ||
        list_any (rule.is_bad_export imported «module».now) «module».now.exports)) }
{
    let exports = module.exports.as_slice();
    repeats || !has_hook(exports) || has_bad_export(imported, module, exports)
}

fn check_exports(imported: usize, module: &Module, repeats: bool) -> Result<(), RuleFault>
    requires imported { imported < 2 ^ 32 }
    requires repeats { repeats ≡ rule.has_repeats «module».now.exports }
    requires sound { IsSound «module».now }
    ensures rule { Judges
        (rule.module_rule fault.BadExport
        (rule.has_repeats «module».now.exports ||
        (not (list_any rule.is_hook «module».now.exports) ||
        list_any (rule.is_bad_export imported «module».now) «module».now.exports)) ∷ []) result }
{
    let broken = has_bad_exports(imported, module, repeats);
    if broken {
        return Err(RuleFault::BadExport);
    }
    Ok(())
}

fn is_started(start: Option<u32>) -> bool
    ensures bad { result ≡ is_some start }
{
    start.is_some()
}

fn check_start(start: Option<u32>) -> Result<(), RuleFault>
    ensures rule { Judges (rule.module_rule fault.Start (is_some start) ∷ []) result }
{
    let broken = is_started(start);
    if broken {
        return Err(RuleFault::Start);
    }
    Ok(())
}

fn has_elements(elements: &Items<Element>) -> bool
    ensures bad { result ≡ has_items elements.now }
{
    match elements.as_slice() {
        [] => false,
        [_, ..] => true,
    }
}

fn check_elements(elements: &Items<Element>) -> Result<(), RuleFault>
    ensures rule { Judges (rule.module_rule fault.Elements (has_items elements.now) ∷ []) result }
{
    let broken = has_elements(elements);
    if broken {
        return Err(RuleFault::Elements);
    }
    Ok(())
}

/// The rules about exports, the start, elements and data, where so many functions are imported, and where two exports
/// have one name or not.
pub(crate) fn check_links(imported: usize, module: &Module, repeats: bool) -> Result<(), RuleFault>
    requires imported { imported < 2 ^ 32 }
    requires repeats { repeats ≡ rule.has_repeats «module».now.exports }
    requires sound { IsSound «module».now }
    ensures rules { Judges (rule.link_rules imported «module».now) result }
{
    check_exports(imported, module, repeats)?;
    check_start(module.start)?;
    check_elements(&module.elements)?;
    check_items::<Segments>(module, &module.segments)
}
