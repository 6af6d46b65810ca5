ghost use Rattle.std.specs.Prelude.{◌≡◌, ◌∷◌, [], length, slice_get, OnOk, if◌then◌else◌};
ghost use Rattle.wa_ops.specs.Typing.{carries, all_carry, is_same_result};
ghost use Rattle.wa_validate.specs.Labels.{rest_of};

use std::alloc::Global;
use std::marker::Model;
use wa_ops::{NoMemory, ValueType};

/// What branches to the open regions carry.
#[derive(Drop)]
pub(crate) struct Labels {
    carried: Vec<Option<ValueType>>,
}

impl Model for Labels {
    ghost use Rattle.std.specs.Prelude.{List, Option, reverse};
    ghost use Rattle.wa_ops.specs.declared.op.ValueType.{ValueType};

    ghost Value = { List (Option ValueType) };

    ghost view = { λ l. reverse l.carried.items };
}

impl Labels {
    pub(crate) fn new(alloc: Global) -> Labels
        ensures empty { result ≡ [] }
    {
        Labels {
            carried: Vec::new(alloc),
        }
    }

    pub(crate) fn push(&mut self, carried: Option<ValueType>) -> Result<(), NoMemory>
        ensures pushed { OnOk result (self.new ≡ carried ∷ self.old) }
    {
        self.carried.push(carried)?;
        Ok(())
    }

    pub(crate) fn pop(&mut self)
        ensures popped { self.new ≡ rest_of self.old }
    {
        let _last = self.carried.pop();
    }

    pub(crate) fn len(&self) -> usize
        ensures count { result ≡ length self.now }
    {
        self.carried.len()
    }

    /// What a branch to this label carries; 0 is the innermost.
    pub(crate) fn get(&self, label: u32) -> Option<Option<ValueType>>
        ensures label { result ≡ slice_get self.now label }
    {
        self.carried.iter().rev().nth(label as usize).copied()
    }

    /// Whether this label is there and carries this.
    fn carries(&self, carried: Option<ValueType>, label: u32) -> bool
        ensures carries { result ≡ carries carried (slice_get self.now label) }
    {
        match self.get(label) {
            Some(other) => is_same_result(carried, other),
            None => false,
        }
    }

    /// Whether each of these labels is there and carries this.
    pub(crate) fn all_carry(&self, carried: Option<ValueType>, labels: &[u32]) -> bool
        ensures all { result ≡ all_carry self.now carried labels.now }
    {
        for label in labels {
            if !self.carries(carried, *label) {
                return false;
            }
        }
        true
    }
}

fn is_same_result(one: Option<ValueType>, other: Option<ValueType>) -> bool
    ensures same { result ≡ is_same_result one other }
{
    match (one, other) {
        (Some(one), Some(other)) => one == other,
        (None, None) => true,
        _ => false,
    }
}
