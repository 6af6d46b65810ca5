ghost use Rattle.std.specs.Prelude.{◌≡◌, Some, None, Option, OnOk, IfOk, length, reverse, if◌then◌else◌};
ghost use Rattle.wa_ops.specs.Typing.{fresh, loosened, push, push_result, pop, pop_all, pop_result, dropped, selected};
ghost use Rattle.wa_ops.specs.Typing.{changed, left_with, one_of};
ghost use Rattle.wa_validate.specs.Slots.{slot_of, slot_in, top_of};

use std::alloc::Global;
use std::marker::Model;
use wa_ops::{NoMemory, ValueType};

/// The type of an operand; behind code that is never reached it may be any.
#[derive(Clone, Copy)]
pub(crate) enum Slot {
    Known(ValueType),
    Any,
}

/// The types of a region's operands. Where they are loose, any operand that is asked for lies below them.
#[derive(Drop)]
pub(crate) struct Operands {
    slots: Vec<Slot>,
    loose: bool,
}

impl Model for Operands {
    ghost use Rattle.std.specs.Prelude.{map, reverse};
    ghost use Rattle.wa_ops.specs.Typing.{Stack};
    ghost use Rattle.wa_validate.specs.Slots.{slot_of};

    ghost Value = { Stack };

    ghost view = { λ o. record { slots = map slot_of (reverse o.slots.items); loose = o.loose } };
}

impl Operands {
    pub(crate) fn new(alloc: Global) -> Operands
        ensures fresh { result ≡ fresh }
    {
        Operands {
            slots: Vec::new(alloc),
            loose: false,
        }
    }

    pub(crate) fn len(&self) -> usize
        ensures count { result ≡ length self.now.slots }
    {
        self.slots.len()
    }

    pub(crate) fn push(&mut self, kind: ValueType) -> Result<(), NoMemory>
        ensures pushed { OnOk result (self.new ≡ push kind self.old) }
    {
        self.slots.push(Slot::Known(kind))?;
        Ok(())
    }

    pub(crate) fn push_result(&mut self, kind: Option<ValueType>) -> Result<(), NoMemory>
        ensures pushed { OnOk result (self.new ≡ push_result kind self.old) }
    {
        match kind {
            Some(kind) => self.push(kind),
            None => Ok(()),
        }
    }

    /// Takes an operand of this type.
    pub(crate) fn take(&mut self, kind: ValueType) -> bool
        ensures taken { pop kind self.old ≡ (if result then Some self.new else None) }
    {
        match self.slots.pop() {
            Some(Slot::Known(other)) => kind == other,
            Some(Slot::Any) => true,
            None => self.loose,
        }
    }

    pub(crate) fn take_result(&mut self, kind: Option<ValueType>) -> bool
        ensures taken { pop_result kind self.old ≡ (if result then Some self.new else None) }
    {
        match kind {
            Some(kind) => self.take(kind),
            None => true,
        }
    }

    /// Takes operands of these types, the last of them first.
    pub(crate) fn take_all(&mut self, kinds: &[ValueType]) -> bool
        ensures taken { pop_all (reverse kinds.now) self.old ≡ (if result then Some self.new else None) }
    {
        for kind in kinds.iter().rev() {
            if !self.take(*kind) {
                return false;
            }
        }
        true
    }

    /// Takes the last operand, whatever its type.
    pub(crate) fn take_any(&mut self) -> Option<Slot>
        ensures none { result ≡ None → top_of self.old.slots self.old.loose ≡ None }
        ensures some { (slot : Slot) → result ≡ Some slot →
            top_of self.old.slots self.old.loose ≡ Some (slot_of slot, self.new) }
    {
        match self.slots.pop() {
            Some(slot) => Some(slot),
            None if self.loose => Some(Slot::Any),
            None => None,
        }
    }

    pub(crate) fn drop_one(&mut self) -> bool
        ensures dropped { dropped self.old.slots self.old.loose ≡ (if result then Some self.new else None) }
    {
        self.slots.pop().is_some() || self.loose
    }

    /// Takes two operands of one type, and gives one.
    pub(crate) fn select(&mut self) -> Result<bool, NoMemory>
        ensures selected { IfOk result
            (λ typed. selected self.old.slots self.old.loose ≡ (if typed then Some self.new else None)) }
    {
        let Some(second) = self.take_any() else {
            return Ok(false);
        };
        let Some(first) = self.take_any() else {
            return Ok(false);
        };
        match one_of(second, first) {
            Some(slot) => {
                self.slots.push(slot)?;
                Ok(true)
            }
            None => Ok(false),
        }
    }

    /// Takes these, the last first, and gives that.
    pub(crate) fn change(&mut self, taken: &[ValueType], given: ValueType) -> Result<bool, NoMemory>
        ensures changed { IfOk result
            (λ typed. changed (reverse taken.now) given self.old ≡ (if typed then Some self.new else None)) }
    {
        if !self.take_all(taken) {
            return Ok(false);
        }
        self.push(given)?;
        Ok(true)
    }

    /// The operands behind an instruction that never goes on.
    pub(crate) fn loosen(&mut self)
        ensures loosened { self.new ≡ loosened }
    {
        self.slots.clear();
        self.loose = true;
    }

    /// Takes a result, and never goes on.
    pub(crate) fn leave_with(&mut self, kind: Option<ValueType>) -> bool
        ensures left { left_with kind self.old ≡ (if result then Some self.new else None) }
    {
        if !self.take_result(kind) {
            return false;
        }
        self.loosen();
        true
    }
}

/// Of two operands of one type, one.
fn one_of(second: Slot, first: Slot) -> Option<Slot>
    ensures one { one_of (slot_of second) (slot_of first) ≡ slot_in result }
{
    match (second, first) {
        (Slot::Any, slot) => Some(slot),
        (slot, Slot::Any) => Some(slot),
        (Slot::Known(a), Slot::Known(b)) if a == b => Some(second),
        _ => None,
    }
}
