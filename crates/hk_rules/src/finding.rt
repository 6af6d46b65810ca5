ghost use Rattle.std.specs.Prelude.{◌≡◌, ℕ, Bool, List, ◌∷◌, [], ◌<◌, ◌^◌, ◌&&◌, length, nat_lt};
ghost use Rattle.wa_ops.specs.Callees.{Callee};
ghost use Rattle.wa_ops.specs.declared.modules.Module.{Module};
ghost use Rattle.wa_ops.specs.declared.op.Op.{Op};
ghost use Rattle.wa_ops.specs.declared.rule_fault.RuleFault.{RuleFault};
ghost use Rattle.wa_ops.specs.Contexts.{callees};
ghost use Rattle.hk_rules.specs.Answers.{FindsIndex, Judges};
ghost use Rattle.wa_ops.specs.HookRules.{code_rule, in_code, item_rule, passes};
ghost use Rattle.wa_ops.specs.Soundness.{AreSound, IsSoundBody};

use wa_ops::{CallNo, Code, Items, Module, Op, RuleFault};

/// A rule about each item of one list of a module.
pub(crate) trait ItemRule {
    type Item;

    /// Whether the item at an index breaks the rule.
    ghost broken: { Module → ℕ → Self.Item → Bool };

    ghost fault_at: { ℕ → RuleFault };

    fn is_broken(module: &Module, index: usize, item: &Self::Item) -> bool
        ensures { result ≡ broken «module».now index item.now };

    fn fault(index: u32) -> RuleFault
        ensures { result ≡ fault_at index };
}

/// A rule about each instruction of the functions, where the imports are these rows.
pub(crate) trait OpRule {
    /// Whether the instruction at a place of these breaks the rule.
    ghost broken: { List Callee → List Op → ℕ → Bool };

    ghost fault_at: { ℕ → ℕ → RuleFault };

    fn is_broken(rows: &[CallNo], ops: &[Op], place: usize) -> bool
        requires { place < length ops.now }
        ensures { result ≡ broken (callees rows.now) ops.now place };

    fn fault(func: u32, op: u32) -> RuleFault
        ensures { result ≡ fault_at func op };
}

/// The first item that breaks the rule.
fn judge_items<R: ItemRule>(module: &Module, items: &[R::Item]) -> Result<(), RuleFault>
    requires counted { length items.now < 2 ^ 32 }
    ensures rule { Judges (item_rule R.fault_at (λ i. passes (R.broken «module».now i) items.now i) ∷ []) result }
{
    for (index, item) in items.iter().enumerate() {
        if R::is_broken(module, index, item) {
            return Err(R::fault(index as u32));
        }
    }
    Ok(())
}

/// The first instruction that breaks the rule.
fn first_broken<R: OpRule>(rows: &[CallNo], ops: &[Op]) -> Option<u32>
    requires counted { length ops.now < 2 ^ 32 }
    ensures place { FindsIndex (λ at. nat_lt at (length ops.now) && R.broken (callees rows.now) ops.now at) result }
{
    for place in 0..ops.len() {
        if R::is_broken(rows, ops, place) {
            return Some(place as u32);
        }
    }
    None
}

/// The first instruction of the first function that breaks the rule.
fn judge_codes<R: OpRule>(rows: &[CallNo], codes: &[Code]) -> Result<(), RuleFault>
    requires sound { AreSound IsSoundBody codes.now }
    ensures rule { Judges (code_rule R.fault_at (in_code (R.broken (callees rows.now)) codes.now) ∷ []) result }
{
    for (func, code) in codes.iter().enumerate() {
        if let Some(op) = first_broken::<R>(rows, code.ops.as_slice()) {
            return Err(R::fault(func as u32, op));
        }
    }
    Ok(())
}

/// The first item that breaks the rule.
pub(crate) fn check_items<R: ItemRule>(
    module: &Module,
    items: &Items<R::Item>,
) -> Result<(), RuleFault>
    requires counted { length items.now < 2 ^ 32 }
    ensures rule { Judges (item_rule R.fault_at (λ i. passes (R.broken «module».now i) items.now i) ∷ []) result }
{
    judge_items::<R>(module, items.as_slice())
}

/// The first instruction of the first function that breaks the rule.
pub(crate) fn check_codes<R: OpRule>(rows: &[CallNo], codes: &Items<Code>) -> Result<(), RuleFault>
    requires sound { AreSound IsSoundBody codes.now }
    ensures rule { Judges (code_rule R.fault_at (in_code (R.broken (callees rows.now)) codes.now) ∷ []) result }
{
    judge_codes::<R>(rows, codes.as_slice())
}
