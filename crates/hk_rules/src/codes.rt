ghost use Rattle.hk_rules.specs.Answers.{Judges};
ghost use Rattle.wa_ops.specs.Contexts.{callees};
ghost use Rattle.std.specs.Prelude.{◌≡◌, length, nat_lt, sum_by};
ghost use Rattle.wa_ops.specs.Contexts.{function_type, parameters_of};
ghost use Rattle.wa_ops.specs.HookRules as rule;
ghost use Rattle.wa_ops.specs.Soundness.{IsSound};

use crate::finding::{ItemRule, OpRule, check_codes, check_items};
use crate::operations::{has_constant, has_guard_call, is_grow, is_indirect, is_loop, is_own_call};
use wa_ops::{CallNo, Code, Module, Op, RuleFault, ValueType};

/// How many parameters the function with this number has.
fn count_parameters(module: &Module, func: usize) -> usize
    ensures count { result ≡ length (parameters_of (function_type «module».now func)) }
{
    let Some(index) = module.functions.as_slice().get(func) else {
        return 0;
    };
    match module.types.as_slice().get(*index as usize) {
        Some(kind) => kind.parameters.len(),
        None => 0,
    }
}

/// Whether runs of locals hold more than `most`.
fn pass(most: u32, locals: &[(u32, ValueType)]) -> bool
    ensures pass { result ≡ nat_lt most (sum_by (λ run. run.0) locals.now) }
{
    let mut left = most;
    for run in locals {
        if left < run.0 {
            return true;
        }
        left -= run.0;
    }
    false
}

/// A function has at most 4,096 parameters and locals.
struct Locals;

impl ItemRule for Locals {
    type Item = Code;

    ghost use Rattle.std.specs.Prelude.{nat_lt};
    ghost use Rattle.wa_ops.specs.HookRules.{count_of_locals};
    ghost use Rattle.wa_ops.specs.declared.rule_fault.RuleFault.TheVariants as fault;

    ghost broken = { λ m func code. nat_lt 4096 (count_of_locals m func code) };

    ghost fault_at = { fault.TooManyLocals };

    fn is_broken(module: &Module, index: usize, item: &Code) -> bool {
        let parameters = count_parameters(module, index);
        4096 < parameters || pass(4096 - parameters as u32, item.locals.as_slice())
    }

    fn fault(func: u32) -> RuleFault {
        RuleFault::TooManyLocals { func }
    }
}

/// An instruction is no `call_indirect`.
struct IndirectCalls;

impl OpRule for IndirectCalls {
    ghost use Rattle.wa_ops.specs.HookRules.{is_indirect, passes};
    ghost use Rattle.wa_ops.specs.declared.rule_fault.RuleFault.TheVariants as fault;

    ghost broken = { λ _. passes is_indirect };

    ghost fault_at = { fault.IndirectCall };

    fn is_broken(_rows: &[CallNo], ops: &[Op], place: usize) -> bool {
        is_indirect(&ops[place])
    }

    fn fault(func: u32, op: u32) -> RuleFault {
        RuleFault::IndirectCall { func, op }
    }
}

/// An instruction is no `memory.grow`.
struct Growth;

impl OpRule for Growth {
    ghost use Rattle.wa_ops.specs.HookRules.{is_grow, passes};
    ghost use Rattle.wa_ops.specs.declared.rule_fault.RuleFault.TheVariants as fault;

    ghost broken = { λ _. passes is_grow };

    ghost fault_at = { fault.Grow };

    fn is_broken(_rows: &[CallNo], ops: &[Op], place: usize) -> bool {
        is_grow(&ops[place])
    }

    fn fault(func: u32, op: u32) -> RuleFault {
        RuleFault::Grow { func, op }
    }
}

/// A call is one of an import.
struct OwnCalls;

impl OpRule for OwnCalls {
    ghost use Rattle.wa_ops.specs.HookRules.{is_own_call, passes};
    ghost use Rattle.wa_ops.specs.declared.rule_fault.RuleFault.TheVariants as fault;

    ghost broken = { λ calls. passes (is_own_call calls) };

    ghost fault_at = { fault.OwnCall };

    fn is_broken(rows: &[CallNo], ops: &[Op], place: usize) -> bool {
        is_own_call(rows, &ops[place])
    }

    fn fault(func: u32, op: u32) -> RuleFault {
        RuleFault::OwnCall { func, op }
    }
}

/// Two constants stand directly before a call of `_g`.
struct GuardConstants;

impl OpRule for GuardConstants {
    ghost use Rattle.wa_ops.specs.HookRules.{lacks_constants};
    ghost use Rattle.wa_ops.specs.declared.rule_fault.RuleFault.TheVariants as fault;

    ghost broken = { lacks_constants };

    ghost fault_at = { fault.GuardNotConstant };

    fn is_broken(rows: &[CallNo], ops: &[Op], place: usize) -> bool {
        if !has_guard_call(rows, ops, place) {
            return false;
        }
        if place < 2 {
            return true;
        }
        !(has_constant(ops, place - 2) && has_constant(ops, place - 1))
    }

    fn fault(func: u32, op: u32) -> RuleFault {
        RuleFault::GuardNotConstant { func, op }
    }
}

/// A loop's body begins with two constants and a call of `_g`.
struct LoopGuards;

impl OpRule for LoopGuards {
    ghost use Rattle.wa_ops.specs.HookRules.{lacks_guard};
    ghost use Rattle.wa_ops.specs.declared.rule_fault.RuleFault.TheVariants as fault;

    ghost broken = { lacks_guard };

    ghost fault_at = { fault.LoopWithoutGuard };

    fn is_broken(rows: &[CallNo], ops: &[Op], place: usize) -> bool {
        if !is_loop(&ops[place]) {
            return false;
        }
        if !has_constant(ops, place + 1) {
            return true;
        }
        if !has_constant(ops, place + 2) {
            return true;
        }
        !has_guard_call(rows, ops, place + 3)
    }

    fn fault(func: u32, op: u32) -> RuleFault {
        RuleFault::LoopWithoutGuard { func, op }
    }
}

/// The rules about locals and instructions, where the imports are these rows.
pub(crate) fn check_instructions(module: &Module, rows: &[CallNo]) -> Result<(), RuleFault>
    requires sound { IsSound «module».now }
    ensures rules { Judges (rule.code_rules (callees rows.now) «module».now) result }
{
    check_items::<Locals>(module, &module.codes)?;
    check_codes::<IndirectCalls>(rows, &module.codes)?;
    check_codes::<Growth>(rows, &module.codes)?;
    check_codes::<OwnCalls>(rows, &module.codes)
}

/// The rules about guards, where the imports are these rows.
pub(crate) fn check_guards(module: &Module, rows: &[CallNo]) -> Result<(), RuleFault>
    requires sound { IsSound «module».now }
    ensures rules { Judges (rule.guard_rules (callees rows.now) «module».now) result }
{
    check_codes::<GuardConstants>(rows, &module.codes)?;
    check_codes::<LoopGuards>(rows, &module.codes)
}
