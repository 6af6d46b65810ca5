ghost use Rattle.std.specs.Prelude.{◌≡◌, [], ◌∷◌, IfOk, OnOk, reverse};
ghost use Rattle.wa_ops.specs.Ends.{BehindBySize, ends_of, entry, first_place, open_before, others};
ghost use Rattle.wa_ops.specs.Sequences.{IsNested, Reads, Sequence, nesting};
ghost use Rattle.wa_ops.specs.Soundness.{IsCounted};

use crate::items::NoMemory;
use crate::op::Op;
use std::alloc::Global;
use std::marker::Model;

/// Places in flat code, the newest first.
#[derive(Drop)]
struct Places {
    places: Vec<u32>,
}

impl Model for Places {
    ghost use Rattle.std.specs.Coded.{coded_list, coded_ℕ};
    ghost use Rattle.std.specs.Prelude.{List, ℕ, reverse};

    ghost Value = { List ℕ };

    ghost coded = { coded_list coded_ℕ };

    ghost view = { λ p. reverse p.places.items };
}

impl Places {
    fn new(alloc: Global) -> Places
        ensures nothing { result ≡ [] }
    {
        Places {
            places: Vec::new(alloc),
        }
    }

    fn push(&mut self, place: u32) -> Result<(), NoMemory>
        ensures pushed { OnOk result (self.new ≡ place ∷ self.old) }
    {
        self.places.push(place)?;
        Ok(())
    }

    /// The newest place, which is taken away; 0 where there is none.
    fn pop(&mut self) -> u32
        ensures popped { result ≡ first_place self.old }
        ensures rest { self.new ≡ others self.old }
    {
        self.places.pop().unwrap_or(0)
    }

    /// The places with the newest first.
    fn into_newest_first(self) -> Vec<u32>
        ensures places { result.items ≡ self }
    {
        let mut places = self.places;
        places.reverse();
        places
    }
}

/// For each `block`, `loop`, `if` and `else` the place of its `end`, for an `if` with an `else` the place of that
/// `else`, and 0 for every other instruction.
///
/// The code is read from its last instruction to its first, with the places of the ends that are open.
pub fn matching_ends(alloc: Global, ops: &[Op]) -> Result<Vec<u32>, NoMemory>
    requires nested { IsNested ops.now }
    requires counted { IsCounted ops.now }
    ensures ends { IfOk result (λ ends. (code : Sequence) → Reads ops.now code → ends.items ≡ ends_of code 0 (0 ∷ [])) }
{
    let mut ends = Places::new(alloc);
    let mut open_ends = Places::new(alloc);
    for place in (0..ops.len()).rev() {
        mark(&ops[place], place as u32, &mut ends, &mut open_ends)?;
    }
    Ok(ends.into_newest_first())
}

/// Adds the entry of the instruction at `place`, and opens and closes what it does, read backwards.
fn mark(op: &Op, place: u32, ends: &mut Places, open_ends: &mut Places) -> Result<(), NoMemory>
    ensures entry { OnOk result (ends.new ≡ entry (nesting op.now) open_ends.old ∷ ends.old) }
    ensures open { OnOk result (open_ends.new ≡ open_before (nesting op.now) place open_ends.old) }
{
    match op {
        Op::Block(_) => ends.push(open_ends.pop())?,
        Op::Loop(_) => ends.push(open_ends.pop())?,
        Op::If(_) => ends.push(open_ends.pop())?,
        Op::Else => {
            ends.push(open_ends.pop())?;
            open_ends.push(place)?;
        }
        Op::End => {
            ends.push(0)?;
            open_ends.push(place)?;
        }
        _ => ends.push(0)?,
    }
    Ok(())
}

/// The law that a sequence takes as many places as it has instructions.
pub fn behind_by_size()
    ensures law { BehindBySize }
{}
