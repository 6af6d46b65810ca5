ghost use Rattle.std.specs.Prelude.{◌≡◌, ◌||◌};
ghost use Rattle.hk_rules.specs.Answers.{Judges};
ghost use Rattle.wa_ops.specs.Soundness.{IsSound};
ghost use Rattle.wa_ops.specs.HookRules as rule;

use crate::finding::{ItemRule, OpRule, check_codes, check_items};
use wa_ops::{CallNo, Code, FuncType, Module, ModuleGlobal, Op, RuleFault, ValueType};

fn is_float(kind: ValueType) -> bool
    ensures float { result ≡ rule.is_float kind }
{
    match kind {
        ValueType::I32 => false,
        ValueType::I64 => false,
        ValueType::F32 => true,
        ValueType::F64 => true,
    }
}

fn has_float(kinds: &[ValueType]) -> bool
    ensures float { result ≡ rule.has_float kinds.now }
{
    kinds.iter().any(|kind| is_float(*kind))
}

fn is_float_result(result_type: Option<ValueType>) -> bool
    ensures float { result ≡ rule.is_float_result result_type }
{
    match result_type {
        Some(kind) => is_float(kind),
        None => false,
    }
}

/// An instruction on floats, or a region whose result is one.
fn is_float_op(op: &Op) -> bool
    ensures float { result ≡ rule.is_float_op op.now }
{
    match op {
        Op::Float(_) => true,
        Op::Block(kind) => is_float_result(*kind),
        Op::Loop(kind) => is_float_result(*kind),
        Op::If(kind) => is_float_result(*kind),
        _ => false,
    }
}

/// A type takes and gives no float.
struct Types;

impl ItemRule for Types {
    type Item = FuncType;

    ghost use Rattle.wa_ops.specs.HookRules.{is_float_type};
    ghost use Rattle.wa_ops.specs.declared.rule_fault.RuleFault.TheVariants as fault;

    ghost broken = { λ _ _ t. is_float_type t };

    ghost fault_at = { fault.FloatType };

    fn is_broken(_module: &Module, _index: usize, item: &FuncType) -> bool {
        has_float(item.parameters.as_slice()) || has_float(item.results.as_slice())
    }

    fn fault(index: u32) -> RuleFault {
        RuleFault::FloatType { index }
    }
}

/// A global is no float.
struct Globals;

impl ItemRule for Globals {
    type Item = ModuleGlobal;

    ghost use Rattle.wa_ops.specs.HookRules.{is_float};
    ghost use Rattle.wa_ops.specs.declared.rule_fault.RuleFault.TheVariants as fault;

    ghost broken = { λ _ _ global. is_float global.kind };

    ghost fault_at = { fault.FloatGlobal };

    fn is_broken(_module: &Module, _index: usize, item: &ModuleGlobal) -> bool {
        is_float(item.kind)
    }

    fn fault(index: u32) -> RuleFault {
        RuleFault::FloatGlobal { index }
    }
}

/// A function has no run of float locals.
struct Locals;

impl ItemRule for Locals {
    type Item = Code;

    ghost use Rattle.wa_ops.specs.HookRules.{has_float_locals};
    ghost use Rattle.wa_ops.specs.declared.rule_fault.RuleFault.TheVariants as fault;

    ghost broken = { λ _ _ code. has_float_locals code };

    ghost fault_at = { fault.FloatLocals };

    fn is_broken(_module: &Module, _index: usize, item: &Code) -> bool {
        item.locals.as_slice().iter().any(|run| is_float(run.1))
    }

    fn fault(func: u32) -> RuleFault {
        RuleFault::FloatLocals { func }
    }
}

/// An instruction is none on floats.
struct Instructions;

impl OpRule for Instructions {
    ghost use Rattle.wa_ops.specs.HookRules.{is_float_op, passes};
    ghost use Rattle.wa_ops.specs.declared.rule_fault.RuleFault.TheVariants as fault;

    ghost broken = { λ _. passes is_float_op };

    ghost fault_at = { fault.FloatCode };

    fn is_broken(_rows: &[CallNo], ops: &[Op], place: usize) -> bool {
        is_float_op(&ops[place])
    }

    fn fault(func: u32, op: u32) -> RuleFault {
        RuleFault::FloatCode { func, op }
    }
}

/// The rules that bar floats.
pub(crate) fn check_floats(module: &Module) -> Result<(), RuleFault>
    requires sound { IsSound «module».now }
    ensures rules { Judges (rule.float_rules «module».now) result }
{
    check_items::<Types>(module, &module.types)?;
    check_items::<Globals>(module, &module.globals)?;
    check_items::<Locals>(module, &module.codes)?;
    check_codes::<Instructions>(&[], &module.codes)
}
