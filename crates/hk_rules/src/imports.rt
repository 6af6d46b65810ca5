ghost use Rattle.hk_rules.specs.Imports.{AreRows, IsRowOf};
ghost use Rattle.std.specs.Prelude.{◌≡◌, ◌≢◌, ◌^◌, ◌<◌, ◌≤◌, IfOk, IfErr, MatchOption, false, length};
ghost use Rattle.wa_ops.specs.HookRules as rule;
ghost use Rattle.wa_ops.specs.Typing.{is_same_type};

use std::alloc::Global;
use wa_ops::{
    CallNo, FuncType, Import, ImportItem, Items, RuleFault, ValueType, call_answer, call_by_name,
    call_parameters,
};

fn is_same(a: ValueType, b: ValueType) -> bool
    ensures same { result ≡ is_same_type a b }
{
    match a {
        ValueType::I32 => b == ValueType::I32,
        ValueType::I64 => b == ValueType::I64,
        ValueType::F32 => b == ValueType::F32,
        ValueType::F64 => b == ValueType::F64,
    }
}

fn are_types(kinds: &[ValueType], wanted: &[ValueType]) -> bool
    ensures same { result ≡ rule.are_types kinds.now wanted.now }
{
    if kinds.len() != wanted.len() {
        return false;
    }
    for index in 0..kinds.len() {
        if !is_same(kinds[index], wanted[index]) {
            return false;
        }
    }
    true
}

/// Whether a function of this type takes these and gives that one.
pub(crate) fn is_function_type(parameters: &[ValueType], answer: ValueType, kind: &FuncType) -> bool
    ensures function { result ≡ rule.is_function_type parameters.now answer kind.now }
{
    are_types(kind.parameters.as_slice(), parameters)
        && are_types(kind.results.as_slice(), &[answer])
}

/// Whether the type at `index` is that of the call in this row.
fn is_row_type(types: &[FuncType], index: u32, number: CallNo) -> bool
    requires row { number.0 ≤ 64 }
    ensures row { result ≡ rule.is_row_type types.now index (Some number.0) }
{
    match types.get(index as usize) {
        Some(kind) => is_function_type(call_parameters(number), call_answer(number), kind),
        None => false,
    }
}

/// The row of the call that the import is, where it is one.
fn import_row(types: &[FuncType], import: &Import) -> Option<CallNo>
    ensures row { MatchOption result (rule.is_api_import types.now import.now ≡ false)
        (λ number. IsRowOf types.now import.now number) }
{
    if import.module.as_slice() != b"env".as_slice() {
        return None;
    }
    let Some(number) = call_by_name(import.name.as_slice()) else {
        return None;
    };
    let ImportItem::Function(index) = import.item else {
        return None;
    };
    if is_row_type(types, index, number) {
        Some(number)
    } else {
        None
    }
}

/// The rows of the imports, each of which is an API call.
pub(crate) fn check_imports(
    alloc: Global,
    types: &[FuncType],
    imports: &[Import],
) -> Result<Items<CallNo>, RuleFault>
    requires counted { length imports.now < 2 ^ 32 }
    ensures rows { IfOk result (λ rows. AreRows types.now imports.now rows) }
    ensures first { IfErr result
        (λ found. found ≢ RuleFault.NoMemory → rule.IsFirst (rule.import_rules types.now imports.now) found) }
{
    let mut rows = Items::new(alloc);
    for (index, import) in imports.iter().enumerate() {
        let Some(number) = import_row(types, import) else {
            return Err(RuleFault::BadImport {
                index: index as u32,
            });
        };
        rows.push(number)?;
    }
    Ok(rows)
}
