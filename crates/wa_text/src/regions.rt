//! The regions that are open in a function.
use std::alloc::Global;
use std::marker::Model;
use wa_ops::{NoMemory, Op};

/// Of each open region whether an `else` may still come in it.
#[derive(Drop)]
pub struct Regions {
    may: Vec<bool>,
}

impl Model for Regions {
    ghost use Rattle.std.specs.Coded.{coded_list, coded_bool};
    ghost use Rattle.std.specs.Prelude.{Bool, List, reverse};

    ghost Value = { List Bool };

    ghost coded = { coded_list coded_bool };

    /// The innermost first.
    ghost view = { λ a. reverse a.may.items };
}

impl Regions {
    ghost use Rattle.std.specs.Prelude.{[], ◌∷◌, ◌≡◌, ◌↔◌, IfOk, IsTrue, OnOk};
    ghost use Rattle.wa_decode.specs.CodeReading.{at_else, at_end, opened};
    ghost use Rattle.wa_text.specs.Draft.{Passes};

    /// None is open.
    pub fn new(alloc: Global) -> Regions
        ensures nothing { result ≡ [] }
    {
        Regions {
            may: Vec::new(alloc),
        }
    }

    /// No region is open.
    pub fn is_empty(&self) -> bool
        ensures empty { IsTrue result ↔ (self.now ≡ []) }
    {
        self.may.is_empty()
    }

    /// Passes an instruction, or answers that it may not stand here.
    pub fn pass(&mut self, op: &Op) -> Result<bool, NoMemory>
        ensures passed { IfOk result (λ stands. Passes stands self.new (opened op.now self.old)) }
    {
        match op {
            Op::Block(_) | Op::Loop(_) => self.enter(false)?,
            Op::If(_) => self.enter(true)?,
            Op::Else => return self.turn(),
            Op::End => return Ok(self.leave()),
            _ => {}
        }
        Ok(true)
    }

    /// A region opens.
    fn enter(&mut self, may_turn: bool) -> Result<(), NoMemory>
        ensures opened { OnOk result (self.new ≡ may_turn ∷ self.old) }
    {
        self.may.push(may_turn)?;
        Ok(())
    }

    /// The innermost region turns to its second arm.
    fn turn(&mut self) -> Result<bool, NoMemory>
        ensures turned { IfOk result (λ stands. Passes stands self.new (at_else self.old)) }
    {
        match self.may.pop() {
            Some(true) => {
                self.may.push(false)?;
                Ok(true)
            }
            _ => Ok(false),
        }
    }

    /// The innermost region closes.
    fn leave(&mut self) -> bool
        ensures closed { Passes result self.new (at_end self.old) }
    {
        self.may.pop().is_some()
    }
}
