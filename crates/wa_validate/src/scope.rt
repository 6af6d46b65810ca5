ghost use Rattle.std.specs.Prelude.{◌≡◌, ◌++◌, ℕ, List, IfOk, IfSome, IsSome, OnOk, Some, None, slice_get, replicate};
ghost use Rattle.wa_ops.specs.declared.op.ValueType.{ValueType};
ghost use Rattle.wa_ops.specs.Callees.{Callee};
ghost use Rattle.wa_ops.specs.Contexts.{callee_of_row, context_of, function_type, locals_of, parameters_of, result_of};
ghost use Rattle.wa_ops.specs.Contexts.{expanded};
ghost use Rattle.wa_ops.specs.Rows.{row_named};
ghost use Rattle.wa_validate.specs.Needs.{AllRowTypes, HasRowType, IsTypeOf};

use std::alloc::Global;
use std::marker::Model;
use wa_ops::{FuncType, ImportItem, Items, Module, ModuleGlobal, NoMemory, ValueType};

/// What the code of a function may name, and its result.
#[derive(Drop)]
pub(crate) struct Scope<'a> {
    wasm: &'a Module,
    locals: Items<ValueType>,
    result: Option<ValueType>,
}

impl<'a> Model for Scope<'a> {
    ghost use Rattle.wa_ops.specs.Contexts.{calls_of, global_types, has_items};
    ghost use Rattle.wa_ops.specs.Typing.{Context};
    ghost use Rattle.wa_ops.specs.Rows.{row_named};
    ghost use Rattle.wa_validate.specs.Needs.{AllRowTypes};

    ghost Value = { Context };

    ghost view = { λ s.
        record {
          calls = calls_of s.wasm.now.imports;
          locals = s.locals;
          globals = global_types s.wasm.now.globals;
          has_memory = has_items s.wasm.now.memories;
          result = s.result;
        } };

    ghost invariant = { λ s. AllRowTypes s.wasm.now.types s.wasm.now.imports };
}

impl<'a> Scope<'a> {
    /// Of the function with this number among those that the module defines.
    pub(crate) fn of(
        alloc: Global,
        module: &'a Module,
        function: usize,
    ) -> Result<Scope<'a>, NoMemory>
        requires imports { AllRowTypes «module».now.types «module».now.imports }
        ensures context { IfOk result (λ scope. scope ≡ context_of «module».now function) }
    {
        let mut locals = Items::new(alloc);
        let result = add_signature(module, function, &mut locals)?;
        add_locals(module, function, &mut locals)?;
        Ok(Scope {
            wasm: module,
            locals,
            result,
        })
    }

    pub(crate) fn result(&self) -> Option<ValueType>
        ensures result { result ≡ self.now.result }
    {
        self.result
    }

    pub(crate) fn local(&self, index: u32) -> Option<ValueType>
        ensures local { result ≡ slice_get self.now.locals index }
    {
        self.locals.as_slice().get(index as usize).copied()
    }

    pub(crate) fn global(&self, index: u32) -> Option<&ModuleGlobal>
        ensures none { result ≡ None → slice_get self.now.globals index ≡ None }
        ensures some { IfSome result (λ global.
            slice_get self.now.globals index
            ≡ Some (record { kind = global.now.kind; is_mutable = global.now.mutable })) }
    {
        self.wasm.globals.as_slice().get(index as usize)
    }

    pub(crate) fn has_memory(&self) -> bool
        ensures memory { result ≡ self.now.has_memory }
    {
        !self.wasm.memories.as_slice().is_empty()
    }

    /// The type of the function that a call names.
    pub(crate) fn callee(&self, function: u32) -> Option<&FuncType>
        ensures none { result ≡ None → slice_get self.now.calls function ≡ None }
        ensures some { IfSome result
            (λ t. (callee : Callee) × (slice_get self.now.calls function ≡ Some callee) × IsTypeOf callee t.now) }
    {
        match self.wasm.imports.as_slice().get(function as usize) {
            Some(import) => function_of(self.wasm, import.item),
            None => None,
        }
    }
}

/// The type of an import that is a function.
fn function_of(module: &Module, item: ImportItem) -> Option<&FuncType>
    requires typed { (name : List ℕ) × HasRowType «module».now.types name item }
    ensures found { IsSome result }
    ensures typed { (name : List ℕ) → HasRowType «module».now.types name item →
        IfSome result (λ t. IsTypeOf (callee_of_row (row_named name)) t.now) }
{
    match item {
        ImportItem::Function(index) => module.types.as_slice().get(index as usize),
        _ => None,
    }
}

fn function_type(module: &Module, function: usize) -> Option<&FuncType>
    ensures none { result ≡ None → function_type «module».now function ≡ None }
    ensures some { IfSome result (λ t. function_type «module».now function ≡ Some t.now) }
{
    let index = module.functions.as_slice().get(function)?;
    module.types.as_slice().get(*index as usize)
}

fn first_result(signature: &FuncType) -> Option<ValueType>
    ensures first { result ≡ result_of (Some signature.now) }
{
    signature.results.as_slice().first().copied()
}

/// Adds the function's parameters; its result.
fn add_signature(
    module: &Module,
    function: usize,
    locals: &mut Items<ValueType>,
) -> Result<Option<ValueType>, NoMemory>
    ensures result { IfOk result (λ kind. kind ≡ result_of (function_type «module».now function)) }
    ensures locals { OnOk result (locals.new ≡ locals.old ++ parameters_of (function_type «module».now function)) }
{
    match function_type(module, function) {
        Some(signature) => {
            add_all(locals, signature.parameters.as_slice())?;
            Ok(first_result(signature))
        }
        None => Ok(None),
    }
}

/// Adds the locals of the function's body.
fn add_locals(
    module: &Module,
    function: usize,
    locals: &mut Items<ValueType>,
) -> Result<(), NoMemory>
    ensures locals { OnOk result (locals.new ≡ locals.old ++ locals_of (slice_get «module».now.codes function)) }
{
    match module.codes.as_slice().get(function) {
        Some(code) => add_runs(locals, code.locals.as_slice()),
        None => Ok(()),
    }
}

fn add_all(locals: &mut Items<ValueType>, kinds: &[ValueType]) -> Result<(), NoMemory>
    ensures added { OnOk result (locals.new ≡ locals.old ++ kinds.now) }
{
    for kind in kinds {
        locals.push(*kind)?;
    }
    Ok(())
}

fn add_runs(locals: &mut Items<ValueType>, runs: &[(u32, ValueType)]) -> Result<(), NoMemory>
    ensures added { OnOk result (locals.new ≡ locals.old ++ expanded runs.now) }
{
    for run in runs {
        add_run(locals, run.0, run.1)?;
    }
    Ok(())
}

fn add_run(locals: &mut Items<ValueType>, count: u32, kind: ValueType) -> Result<(), NoMemory>
    ensures added { OnOk result (locals.new ≡ locals.old ++ replicate count kind) }
{
    for _ in 0..count {
        locals.push(kind)?;
    }
    Ok(())
}
