ghost use Rattle.hk_rules.specs.Sparing.{arms_before, at_if, dearer, innermost_arm, load, outer_arms, saving};
ghost use Rattle.hk_rules.specs.Sparing.{saving_at_if, spared};
ghost use Rattle.std.specs.Prelude.{◌≡◌, ◌+◌, ◌∷◌, ◌<◌, ◌^◌, [], IfOk, OnOk, false};
ghost use Rattle.wa_ops.specs.Sequences.{IsNested, Reads, Sequence, nesting};
ghost use Rattle.wa_ops.specs.Soundness.{IsCounted};

use std::alloc::Global;
use std::marker::Model;
use wa_ops::{Items, NoMemory, Op};

/// A region whose instructions are read from the last: whether it is an `if`'s first arm, and what those read so far
/// cost.
#[derive(Clone, Copy)]
pub(crate) struct OpenArm {
    is_first: bool,
    cost: u32,
}

/// The regions that are open at a place of flat code.
#[derive(Drop)]
struct OpenArms {
    arms: Vec<OpenArm>,
}

impl Model for OpenArms {
    ghost use Rattle.hk_rules.specs.declared.sparing.OpenArm.{OpenArm};
    ghost use Rattle.std.specs.Prelude.{List, reverse};

    ghost Value = { List OpenArm };

    ghost view = { λ here. reverse here.arms.items };
}

impl OpenArms {
    fn new(alloc: Global) -> OpenArms
        ensures none { result ≡ [] }
    {
        OpenArms {
            arms: Vec::new(alloc),
        }
    }

    fn open(&mut self, is_first: bool) -> Result<(), NoMemory>
        ensures opened { OnOk result (self.new ≡ record { is_first = is_first; cost = 0 } ∷ self.old) }
    {
        self.arms.push(OpenArm { is_first, cost: 0 })?;
        Ok(())
    }

    /// The innermost region, which is taken away.
    fn close(&mut self) -> OpenArm
        ensures closed { result ≡ innermost_arm self.old }
        ensures rest { self.new ≡ outer_arms self.old }
    {
        self.arms.pop().unwrap_or(OpenArm {
            is_first: false,
            cost: 0,
        })
    }

    /// Adds to the cost of the innermost region.
    fn add(&mut self, more: u32) -> Result<(), NoMemory>
        requires room { more + (innermost_arm self.old).cost < 2 ^ 32 }
        ensures added { OnOk result (self.new ≡ dearer more self.old) }
    {
        let OpenArm { is_first, cost } = self.close();
        self.arms.push(OpenArm {
            is_first,
            cost: more + cost,
        })?;
        Ok(())
    }

    /// Goes past an `if`, and tells what its cheaper arm costs.
    fn close_if(&mut self) -> Result<u32, NoMemory>
        requires room { load self.old + 1 < 2 ^ 32 }
        ensures saving { IfOk result (λ found. found ≡ saving_at_if (innermost_arm self.old) (outer_arms self.old)) }
        ensures arms { OnOk result (self.new ≡ at_if (innermost_arm self.old) (outer_arms self.old)) }
    {
        let first = self.close();
        if !first.is_first {
            self.add(2 + first.cost)?;
            return Ok(0);
        }
        let second = self.close();
        self.add(2 + first.cost.max(second.cost))?;
        Ok(first.cost.min(second.cost))
    }
}

/// The entry of an instruction, which is read after those behind it.
fn saving(op: &Op, arms: &mut OpenArms) -> Result<u32, NoMemory>
    requires room { load arms.old + 1 < 2 ^ 32 }
    ensures saving { IfOk result (λ found. found ≡ saving (nesting op.now) arms.old) }
    ensures arms { OnOk result (arms.new ≡ arms_before (nesting op.now) arms.old) }
{
    match op {
        Op::Block(_) => {
            let inside = arms.close();
            arms.add(2 + inside.cost)?;
        }
        Op::Loop(_) => {
            arms.close();
            arms.add(1)?;
        }
        Op::If(_) => return arms.close_if(),
        Op::Else => arms.open(true)?,
        Op::End => arms.open(false)?,
        _ => arms.add(1)?,
    }
    Ok(0)
}

/// For each instruction of a body what the bound of version 1 spares at it: at an `if` with two arms what the cheaper
/// one costs, at every other nothing.
pub(crate) fn spared_of(alloc: Global, ops: &[Op]) -> Result<Items<u32>, NoMemory>
    requires nested { IsNested ops.now }
    requires counted { IsCounted ops.now }
    ensures spared { IfOk result (λ found. (body : Sequence) → Reads ops.now body → found ≡ spared body (0 ∷ [])) }
{
    let mut found = Vec::new(alloc);
    let mut arms = OpenArms::new(alloc);
    for place in (0..ops.len()).rev() {
        found.push(saving(&ops[place], &mut arms)?)?;
    }
    found.reverse();
    Ok(Items::from_vec(found))
}
