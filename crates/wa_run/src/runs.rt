//! Turns up to the one that stops a run.
ghost use Rattle.std.specs.Prelude.{◌<◌, ◌≡◌, ◌^◌, length, IfOk, IsErr, IsTrue};
ghost use Rattle.wa_ops.specs.Soundness.{Each, IsSoundOp};
ghost use Rattle.wa_machine.specs.Starts.{meaning_of};
ghost use Rattle.wa_run.specs.Calls.{AreRows};
ghost use Rattle.wa_run.specs.Running.{IsHeld};
ghost use Rattle.wa_run.specs.Runs.{CanEnd, Stops};

use crate::running::{Running, Stop};
use wa_num::Host;
use wa_ops::{CallNo, NoMemory, Op};

/// Why a run stopped, and in which turn.
#[derive(Clone, Copy, Debug, PartialEq, Eq)]
pub(crate) struct Stopped {
    pub(crate) stop: Stop,
    pub(crate) count: u64,
}

impl Running {
    /// Makes turns up to the one that stops the run.
    ///
    /// # Errors
    ///
    /// `NoMemory`, only from a host whose calls can want memory. The run is then of no further use.
    #[inline(never)]
    pub(crate) fn run<H: Host>(
        &mut self,
        ops: &[Op],
        ends: &[u32],
        calls: &[CallNo],
        host: &mut H,
    ) -> Result<Stopped, NoMemory>
        requires counted { length ops.now < 2 ^ 32 }
        requires paired { length ends.now ≡ length ops.now }
        requires sound { Each IsSoundOp ops.now }
        requires rows { AreRows calls.now }
        requires can { CanEnd (meaning_of H.answer H.memory_after H.state_after) ops.now ends.now calls.now self.old
            host.old }
        ensures stops { IfOk result (λ stopped.
            Stops (meaning_of H.answer H.memory_after H.state_after) ops.now ends.now calls.now self.old host.old
            stopped self.new host.new) }
        ensures held { IfOk result (λ stopped. IsHeld stopped.stop self.new.store.memory) }
        ensures told { H.may_want host.new ≡ H.may_want host.old }
        ensures wants { IsErr result → IsTrue (H.may_want host.old) }
    {
        let mut count = 0;
        loop {
            if let Some(stop) = self.turn(ops, ends, calls, host)? {
                let count = count + 1;
                return Ok(Stopped { stop, count });
            }
            count += 1;
        }
    }
}
