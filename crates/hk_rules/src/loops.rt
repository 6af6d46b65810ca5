ghost use Rattle.hk_rules.specs.Loops.{body_guards, code_guards, innermost, loop_guards};
ghost use Rattle.hk_rules.specs.Passing.{first_around, guard_by, number_in, number_of, others_around, passed};
ghost use Rattle.std.specs.Prelude.{◌≡◌, ◌+◌, ◌∷◌, ◌<◌, ◌^◌, [], IfOk, None, OnOk, Some, length, map, slice_get};
ghost use Rattle.wa_ops.specs.Sequences.{IsNested, Reads, Sequence, nesting};
ghost use Rattle.wa_ops.specs.Soundness.{AreSound, IsCounted, IsSoundBody};

use crate::guards::{FunctionGuards, LoopGuard};
use crate::operations::is_loop;
use crate::sparing::spared_of;
use std::alloc::Global;
use std::marker::Model;
use wa_ops::{Code, Items, NoMemory, Op};

/// The unsigned number of an `i32.const`.
fn number_of(op: &Op) -> Option<u32>
    ensures number { result ≡ number_of op.now }
{
    match op {
        Op::I32Const(number) => Some(number.cast_unsigned()),
        _ => None,
    }
}

/// The unsigned number of the `i32.const` at this place.
fn number_at(ops: &[Op], place: usize) -> Option<u32>
    ensures number { result ≡ number_in (slice_get ops.now place) }
{
    match ops.get(place) {
        Some(op) => number_of(op),
        None => None,
    }
}

/// The loop at this place, with the numbers of its guard.
fn guard_at(ops: &[Op], place: usize) -> LoopGuard
    requires place { place < 2 ^ 32 }
    ensures guard { result
        ≡ guard_by place (number_in (slice_get ops.now (place + 1))) (number_in (slice_get ops.now (place + 2))) }
{
    let op = place as u32;
    match (number_at(ops, place + 1), number_at(ops, place + 2)) {
        (Some(id), Some(limit)) => LoopGuard { op, id, limit },
        _ => LoopGuard {
            op,
            id: 0,
            limit: 0,
        },
    }
}

/// The loops of a body, in order of place.
fn loops_of(alloc: Global, ops: &[Op]) -> Result<Items<LoopGuard>, NoMemory>
    requires counted { IsCounted ops.now }
    ensures loops { IfOk result (λ loops. (body : Sequence) → Reads ops.now body → loops ≡ loop_guards body 0) }
{
    let mut loops = Items::new(alloc);
    for place in 0..ops.len() {
        if is_loop(&ops[place]) {
            loops.push(guard_at(ops, place))?;
        }
    }
    Ok(loops)
}

/// The loop whose body goes on at a place of flat code, and those around it.
#[derive(Drop)]
struct OpenLoops {
    inner: Option<u32>,
    around: Vec<Option<u32>>,
    count: u32,
}

impl Model for OpenLoops {
    ghost use Rattle.hk_rules.specs.Passing.{Open};
    ghost use Rattle.std.specs.Prelude.{reverse};

    ghost Value = { Open };

    ghost view = { λ here. record { inner = here.inner; around = reverse here.around.items; count = here.count } };
}

impl OpenLoops {
    fn new(alloc: Global) -> OpenLoops
        ensures none { result ≡ record { inner = None; around = []; count = 0 } }
    {
        OpenLoops {
            inner: None,
            around: Vec::new(alloc),
            count: 0,
        }
    }

    /// The innermost loop.
    fn inner(&self) -> Option<u32>
        ensures inner { result ≡ self.now.inner }
    {
        self.inner
    }

    fn open(&mut self, inner: Option<u32>) -> Result<(), NoMemory>
        ensures opened { OnOk result
            (self.new ≡ record { inner = inner; around = self.old.inner ∷ self.old.around; count = self.old.count }) }
    {
        self.around.push(self.inner)?;
        self.inner = inner;
        Ok(())
    }

    fn open_loop(&mut self) -> Result<(), NoMemory>
        requires few { self.old.count + 1 < 2 ^ 32 }
        ensures opened { OnOk result
            (self.new
            ≡ record {
              inner = Some self.old.count;
              around = self.old.inner ∷ self.old.around;
              count = self.old.count + 1;
            }) }
    {
        self.open(Some(self.count))?;
        self.count += 1;
        Ok(())
    }

    fn close(&mut self)
        ensures closed { self.new
            ≡ record {
              inner = first_around self.old.around;
              around = others_around self.old.around;
              count = self.old.count;
            } }
    {
        self.inner = self.around.pop().unwrap_or(None);
    }

    /// Goes past an instruction.
    fn pass(&mut self, op: &Op) -> Result<(), NoMemory>
        requires few { self.old.count + 1 < 2 ^ 32 }
        ensures passed { OnOk result (self.new ≡ passed (nesting op.now) self.old) }
    {
        match op {
            Op::Block(_) => self.open(self.inner),
            Op::Loop(_) => self.open_loop(),
            Op::If(_) => self.open(self.inner),
            Op::End => {
                self.close();
                Ok(())
            }
            _ => Ok(()),
        }
    }
}

/// For each instruction of a body, the number of the innermost loop to whose body it belongs.
fn innermost_of(alloc: Global, ops: &[Op]) -> Result<Items<Option<u32>>, NoMemory>
    requires counted { IsCounted ops.now }
    ensures innermost { IfOk result
        (λ found. (body : Sequence) → Reads ops.now body → found ≡ innermost None 0 body (None ∷ [])) }
{
    let mut found = Items::new(alloc);
    let mut open = OpenLoops::new(alloc);
    for op in ops {
        found.push(open.inner())?;
        open.pass(op)?;
    }
    Ok(found)
}

/// The loops and arms of a function.
fn function_guards(alloc: Global, ops: &[Op]) -> Result<FunctionGuards, NoMemory>
    requires nested { IsNested ops.now }
    requires counted { IsCounted ops.now }
    ensures loops { IfOk result (λ guards. (body : Sequence) → Reads ops.now body → guards ≡ body_guards body) }
{
    Ok(FunctionGuards {
        loops: loops_of(alloc, ops)?,
        innermost: innermost_of(alloc, ops)?,
        spared: spared_of(alloc, ops)?,
    })
}

/// The loops and arms of each function.
pub(crate) fn functions_of(alloc: Global, codes: &[Code]) -> Result<Items<FunctionGuards>, NoMemory>
    requires sound { AreSound IsSoundBody codes.now }
    ensures functions { IfOk result (λ functions. map (λ guards. Some guards) functions ≡ code_guards codes.now) }
{
    let mut functions = Items::new(alloc);
    for code in codes {
        functions.push(function_guards(alloc, code.ops.as_slice())?)?;
    }
    Ok(functions)
}
