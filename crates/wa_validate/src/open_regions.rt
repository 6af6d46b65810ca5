ghost use Rattle.std.specs.Prelude.{◌≡◌, ◌+◌, ◌<◌, ◌^◌, length, OnOk, IfOk, Some, None, if◌then◌else◌};
ghost use Rattle.wa_ops.specs.Typing.{and_then};
ghost use Rattle.wa_validate.specs.Depths.{depth_at};
ghost use Rattle.wa_validate.specs.Steps.{begun, entered, ended, turned, closed, step, handed};

use crate::depth::Depth;
use crate::labels::Labels;
use crate::operands::Operands;
use crate::plain::type_plain;
use crate::region::{Around, Region};
use crate::scope::Scope;
use std::alloc::Global;
use std::mem;
use wa_ops::{NoMemory, Op, ValueType};

/// The regions that are open at a place of a body.
#[derive(Drop)]
pub(crate) struct OpenRegions {
    pub(crate) labels: Labels,
    pub(crate) inner: Region,
    pub(crate) around: Around,
}

impl OpenRegions {
    /// At the beginning of a body with this result.
    pub(crate) fn new(alloc: Global, kind: Option<ValueType>) -> Result<OpenRegions, NoMemory>
        ensures begun { IfOk result (λ regions. regions ≡ begun kind) }
    {
        let mut labels = Labels::new(alloc);
        labels.push(kind)?;
        Ok(OpenRegions {
            labels,
            inner: Region {
                first_arm: false,
                result: kind,
                below: 0,
                operands: Operands::new(alloc),
            },
            around: Around::new(alloc),
        })
    }

    /// How deep this place is.
    pub(crate) fn depth(&self) -> Depth
        requires operands { self.now.inner.below + length self.now.inner.operands.slots < 2 ^ 32 }
        requires labels { length self.now.labels < 2 ^ 32 }
        ensures depth { result ≡ depth_at self.now.labels self.now.inner.below self.now.inner.operands }
    {
        Depth {
            operands: self.inner.depth(),
            labels: self.labels.len() as u32,
        }
    }

    /// Begins a region inside.
    fn enter(
        &mut self,
        alloc: Global,
        first_arm: bool,
        label: Option<ValueType>,
        kind: Option<ValueType>,
    ) -> Result<(), NoMemory>
        requires few { self.old.inner.below + length self.old.inner.operands.slots < 2 ^ 32 }
        ensures entered { OnOk result (self.new ≡ entered first_arm label kind self.old) }
    {
        let inside = Region {
            first_arm,
            result: kind,
            below: self.inner.depth(),
            operands: Operands::new(alloc),
        };
        self.labels.push(label)?;
        self.around.push(mem::replace(&mut self.inner, inside))
    }

    /// Whether the innermost region leaves its result and no more.
    fn end(&mut self) -> bool
        ensures ended { ended self.old ≡ (if result then Some self.new else None) }
    {
        self.inner.operands.take_result(self.inner.result) && self.inner.operands.len() == 0
    }

    /// At an `else`: the second arm of an `if`.
    fn turn(&mut self, alloc: Global) -> bool
        ensures turned { and_then (ended self.old) turned ≡ (if result then Some self.new else None) }
    {
        if !self.end() {
            return false;
        }
        if !self.inner.first_arm {
            return false;
        }
        self.inner.first_arm = false;
        self.inner.operands = Operands::new(alloc);
        true
    }

    /// At an `end`: the region around has the result.
    fn close(&mut self) -> Result<bool, NoMemory>
        ensures closed { IfOk result
            (λ typed. and_then (ended self.old) closed ≡ (if typed then Some self.new else None)) }
    {
        if !self.end() {
            return Ok(false);
        }
        if self.inner.first_arm && self.inner.result.is_some() {
            return Ok(false);
        }
        self.hand_on()?;
        Ok(true)
    }

    fn hand_on(&mut self) -> Result<(), NoMemory>
        ensures handed { OnOk result (self.new ≡ handed self.old self.old.around) }
    {
        let Some(outer) = self.around.pop() else {
            return Ok(());
        };
        let result = self.inner.result;
        self.inner = outer;
        self.labels.pop();
        self.inner.operands.push_result(result)
    }

    /// Goes past an instruction, where it is well typed.
    pub(crate) fn step(
        &mut self,
        alloc: Global,
        scope: &Scope<'_>,
        op: &Op,
    ) -> Result<bool, NoMemory>
        requires few { self.old.inner.below + length self.old.inner.operands.slots < 2 ^ 32 }
        ensures step { IfOk result (λ typed. step scope.now op.now self.old ≡ (if typed then Some self.new else None)) }
    {
        match op {
            Op::Block(result) => {
                self.enter(alloc, false, *result, *result)?;
                Ok(true)
            }
            Op::Loop(result) => {
                self.enter(alloc, false, None, *result)?;
                Ok(true)
            }
            Op::If(result) => {
                if !self.inner.operands.take(ValueType::I32) {
                    return Ok(false);
                }
                self.enter(alloc, true, *result, *result)?;
                Ok(true)
            }
            Op::Else => Ok(self.turn(alloc)),
            Op::End => self.close(),
            _ => type_plain(scope, &self.labels, op, &mut self.inner.operands),
        }
    }
}
