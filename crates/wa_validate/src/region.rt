ghost use Rattle.std.specs.Prelude.{◌≡◌, ◌∷◌, [], ◌+◌, ◌<◌, ◌^◌, length, OnOk, MatchOption};

use crate::operands::Operands;
use std::alloc::Global;
use std::marker::Model;
use wa_ops::{NoMemory, ValueType};

/// A region that is open.
#[derive(Drop)]
pub(crate) struct Region {
    /// Whether this is the first arm of an `if`.
    pub(crate) first_arm: bool,
    pub(crate) result: Option<ValueType>,
    /// How many operands the regions around have together.
    pub(crate) below: u32,
    pub(crate) operands: Operands,
}

impl Region {
    /// How many operands there are, with those of the regions around.
    pub(crate) fn depth(&self) -> u32
        requires few { self.now.below + length self.now.operands.slots < 2 ^ 32 }
        ensures depth { result ≡ self.now.below + length self.now.operands.slots }
    {
        self.below + self.operands.len() as u32
    }
}

/// The regions around the innermost.
#[derive(Drop)]
pub(crate) struct Around {
    regions: Vec<Region>,
}

impl Model for Around {
    ghost use Rattle.std.specs.Prelude.{List, reverse};
    ghost use Rattle.wa_validate.specs.declared.region.Region.{Region};

    ghost Value = { List Region };

    ghost view = { λ a. reverse a.regions.items };
}

impl Around {
    pub(crate) fn new(alloc: Global) -> Around
        ensures empty { result ≡ [] }
    {
        Around {
            regions: Vec::new(alloc),
        }
    }

    pub(crate) fn push(&mut self, region: Region) -> Result<(), NoMemory>
        ensures pushed { OnOk result (self.new ≡ region ∷ self.old) }
    {
        self.regions.push(region)?;
        Ok(())
    }

    pub(crate) fn pop(&mut self) -> Option<Region>
        ensures popped { MatchOption result ((self.old ≡ []) × (self.new ≡ []))
            (λ region. self.old ≡ region ∷ self.new) }
    {
        self.regions.pop()
    }
}
