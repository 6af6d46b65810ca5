ghost use Rattle.hk_rules.specs.Answers.{Judges};
ghost use Rattle.std.specs.List.{list_any};
ghost use Rattle.std.specs.Prelude.{◌≡◌, ◌∷◌, [], ◌||◌, length, nat_lt};
ghost use Rattle.wa_ops.specs.declared.rule_fault.RuleFault.TheVariants as fault;
ghost use Rattle.wa_ops.specs.HookRules as rule;
ghost use Rattle.wa_ops.specs.Soundness.{IsSound};

use crate::finding::{ItemRule, check_items};
use crate::operations::{ends_second, is_constant, is_wide_constant};
use wa_ops::{FuncType, Items, Limits, Module, ModuleGlobal, Op, RuleFault, ValueType};

/// A type has at most one result.
struct Results;

impl ItemRule for Results {
    type Item = FuncType;

    ghost use Rattle.std.specs.Prelude.{length, nat_lt};
    ghost use Rattle.wa_ops.specs.declared.rule_fault.RuleFault.TheVariants as fault;

    ghost broken = { λ _ _ t. nat_lt 1 (length t.results) };

    ghost fault_at = { fault.BadType };

    fn is_broken(_module: &Module, _index: usize, item: &FuncType) -> bool {
        item.results.len() > 1
    }

    fn fault(index: u32) -> RuleFault {
        RuleFault::BadType { index }
    }
}

/// A function's type is there.
struct Functions;

impl ItemRule for Functions {
    type Item = u32;

    ghost use Rattle.std.specs.Prelude.{length, nat_le};
    ghost use Rattle.wa_ops.specs.declared.rule_fault.RuleFault.TheVariants as fault;

    ghost broken = { λ m _ index. nat_le (length m.types) index };

    ghost fault_at = { fault.BadFunction };

    fn is_broken(module: &Module, _index: usize, item: &u32) -> bool {
        module.types.len() <= *item as usize
    }

    fn fault(func: u32) -> RuleFault {
        RuleFault::BadFunction { func }
    }
}

/// A global begins as one constant of its type.
struct Globals;

impl ItemRule for Globals {
    type Item = ModuleGlobal;

    ghost use Rattle.std.specs.Prelude.{not};
    ghost use Rattle.wa_ops.specs.HookRules.{is_one, is_constant_of};
    ghost use Rattle.wa_ops.specs.declared.rule_fault.RuleFault.TheVariants as fault;

    ghost broken = { λ _ _ global. not (is_one (is_constant_of global.kind) global.init) };

    ghost fault_at = { fault.BadGlobal };

    fn is_broken(_module: &Module, _index: usize, item: &ModuleGlobal) -> bool {
        !is_initial(item.kind, item.init.as_slice())
    }

    fn fault(index: u32) -> RuleFault {
        RuleFault::BadGlobal { index }
    }
}

fn is_initial(kind: ValueType, init: &[Op]) -> bool
    ensures initial { result ≡ rule.is_one (rule.is_constant_of kind) init.now }
{
    match init.get(0) {
        Some(op) => is_constant_of(kind, op) && ends_second(init),
        None => false,
    }
}

fn is_constant_of(kind: ValueType, op: &Op) -> bool
    ensures constant { result ≡ rule.is_constant_of kind op.now }
{
    match kind {
        ValueType::I32 => is_constant(op),
        ValueType::I64 => is_wide_constant(op),
        ValueType::F32 => false,
        ValueType::F64 => false,
    }
}

/// Whether the greatest size, where it is given, is one of these.
fn is_max_within(low: u32, high: u32, max: Option<u32>) -> bool
    ensures within { result ≡ rule.is_max_within low high max }
{
    match max {
        Some(max) => low <= max && max <= high,
        None => true,
    }
}

fn is_bad_table(limits: &Limits) -> bool
    ensures bad { result ≡ rule.is_bad_table limits.now }
{
    !is_max_within(limits.min, u32::MAX, limits.max)
}

fn is_bad_memory(limits: &Limits) -> bool
    ensures bad { result ≡ rule.is_bad_memory limits.now }
{
    limits.min > 16 || !is_max_within(limits.min, 65536, limits.max)
}

fn has_bad_table(tables: &[Limits]) -> bool
    ensures bad { result ≡ list_any rule.is_bad_table tables.now }
{
    tables.iter().any(is_bad_table)
}

fn has_bad_memory(memories: &[Limits]) -> bool
    ensures bad { result ≡ list_any rule.is_bad_memory memories.now }
{
    memories.iter().any(is_bad_memory)
}

fn are_bad_tables(tables: &Items<Limits>) -> bool
    ensures bad { result ≡ (nat_lt 1 (length tables.now) || list_any rule.is_bad_table tables.now) }
{
    tables.len() > 1 || has_bad_table(tables.as_slice())
}

fn are_bad_memories(memories: &Items<Limits>) -> bool
    ensures bad { result ≡ (nat_lt 1 (length memories.now) || list_any rule.is_bad_memory memories.now) }
{
    memories.len() > 1 || has_bad_memory(memories.as_slice())
}

fn check_tables(tables: &Items<Limits>) -> Result<(), RuleFault>
    ensures rule { Judges
        (rule.module_rule fault.BadTable (nat_lt 1 (length tables.now) || list_any rule.is_bad_table tables.now) ∷ [])
        result }
{
    let broken = are_bad_tables(tables);
    if broken {
        return Err(RuleFault::BadTable);
    }
    Ok(())
}

fn check_memories(memories: &Items<Limits>) -> Result<(), RuleFault>
    ensures rule { Judges
        (rule.module_rule fault.BadMemory (nat_lt 1 (length memories.now) || list_any rule.is_bad_memory memories.now) ∷
        []) result }
{
    let broken = are_bad_memories(memories);
    if broken {
        return Err(RuleFault::BadMemory);
    }
    Ok(())
}

/// The rules about types, functions, tables, memories and globals.
pub(crate) fn check_sections(module: &Module) -> Result<(), RuleFault>
    requires sound { IsSound «module».now }
    ensures rules { Judges (rule.section_rules «module».now) result }
{
    check_items::<Results>(module, &module.types)?;
    check_items::<Functions>(module, &module.functions)?;
    check_tables(&module.tables)?;
    check_memories(&module.memories)?;
    check_items::<Globals>(module, &module.globals)
}
