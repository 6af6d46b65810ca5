//! One turn of a run.
ghost use Rattle.std.specs.Prelude.{ℕ, ◌<◌, ◌≡◌, ◌^◌, length, IfOk, IsErr, IsTrue, OnOk};
ghost use Rattle.wa_ops.specs.Soundness.{Each, IsSoundOp};
ghost use Rattle.wa_run.specs.Acts.{IsPlain};
ghost use Rattle.wa_machine.specs.Starts.{meaning_of};
ghost use Rattle.wa_run.specs.Calls.{AreRows, CanGo, Goes};
ghost use Rattle.wa_run.specs.Running.{CanTurn, IsArm, Turns, Widens};

use crate::running::{Running, Stop};
use wa_num::Host;
use wa_ops::{CallNo, NoMemory, Op};

impl Running {
    /// One turn: the run goes on, or stops.
    ///
    /// # Errors
    ///
    /// `NoMemory`, only from a host whose calls can want memory. The run is then of no further use.
    #[inline(always)]
    pub(crate) fn turn<H: Host>(
        &mut self,
        ops: &[Op],
        ends: &[u32],
        calls: &[CallNo],
        host: &mut H,
    ) -> Result<Option<Stop>, NoMemory>
        requires counted { length ops.now < 2 ^ 32 }
        requires paired { length ends.now ≡ length ops.now }
        requires sound { Each IsSoundOp ops.now }
        requires rows { AreRows calls.now }
        requires meets { CanGo H ops.now ends.now calls.now self.old }
        requires words_room { length self.old.store.words.items < self.old.store.words.room }
        requires labels_room { length self.old.labels.items < self.old.labels.room }
        requires guards_room { length self.old.guards.items < self.old.guards.room }
        ensures goes { IfOk result (λ found.
            Goes H (meaning_of H.answer H.memory_after H.state_after) calls.now ops.now ends.now self.old host.old found
            self.new host.new) }
        ensures grows { OnOk result (Widens self.old self.new) }
        ensures told { H.may_want host.new ≡ H.may_want host.old }
        ensures wants { IsErr result → IsTrue (H.may_want host.old) }
    {
        let op = &ops[self.at];
        match op {
            Op::Block(carried) => {
                self.block::<H>(*carried, ends[self.at]);
                Ok(None)
            }
            Op::Loop(carried) => {
                self.loop_::<H>(*carried, ends[self.at]);
                Ok(None)
            }
            Op::If(carried) => {
                let entry = ends[self.at];
                self.choose::<H>(*carried, entry, other_arm(ops, ends, entry));
                Ok(None)
            }
            Op::Else => Ok(self.end::<H>()),
            Op::End => Ok(self.end::<H>()),
            Op::Br(label) => Ok(self.branch::<H>(*label)),
            Op::BrIf(label) => Ok(self.branch_if::<H>(*label)),
            Op::BrTable { labels, last } => Ok(self.branch_table::<H>(labels.as_slice(), *last)),
            Op::Return => Ok(Some(self.leave::<H>())),
            Op::Call(function) => self.call(calls, *function, host),
            _ => Ok(self.plain::<H>(op)),
        }
    }

    /// An instruction on operands, variables and memory alone.
    #[inline(always)]
    pub(crate) fn plain<S>(&mut self, op: &Op) -> Option<Stop>
        requires plain { IsPlain op.now }
        requires sound { IsSoundOp op.now }
        requires meets { CanTurn S op.now self.old }
        requires place { self.old.at < 2 ^ 63 }
        requires room { length self.old.store.words.items < self.old.store.words.room }
        ensures turns { (entry : ℕ) → Turns S op.now entry self.old result self.new }
        ensures grows { Widens self.old self.new }
    {
        match self.store.act::<S>(op) {
            Some(cause) => Some(Stop::Trapped(cause)),
            None => {
                self.at += 1;
                None
            }
        }
    }
}

/// Where an `else` stands at this place, the place of its `end`.
#[inline(always)]
fn other_arm(ops: &[Op], ends: &[u32], place: u32) -> Option<u32>
    requires paired { length ends.now ≡ length ops.now }
    ensures arm { IsArm ops.now ends.now place result }
{
    match ops.get(place as usize) {
        Some(Op::Else) => Some(ends[place as usize]),
        _ => None,
    }
}
