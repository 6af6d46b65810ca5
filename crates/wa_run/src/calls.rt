//! The calls of imports.
ghost use Rattle.std.specs.Prelude.{ℕ, List, ◌<◌, ◌≡◌, ◌≤◌, ◌^◌, length, slice_get, Some, IfOk, IsErr, IsFalse, IsTrue};
ghost use Rattle.std.specs.Prelude.{OnOk};
ghost use Rattle.wa_ops.specs.Callees.{guard, host_call};
ghost use Rattle.wa_ops.specs.Rows.{rollback_row, row_parameters};
ghost use Rattle.wa_ops.specs.declared.op.Op.{Op};
ghost use Rattle.wa_run.specs.Running.{Widens};
ghost use Rattle.wa_run.specs.declared.running.Stop.{Stop};
ghost use Rattle.wa_machine.specs.Starts.{meaning_of};
ghost use Rattle.wa_run.specs.Calls.{AreRows, Asks, CallsIt, CanCall, CanGo, Goes, ending_of};

use crate::running::{Message, Running, Stop};
use wa_num::Host;
use wa_ops::{CallNo, NoMemory, call_parameters};

impl Running {
    /// A call of the function with this number.
    ///
    /// # Errors
    ///
    /// `NoMemory`, only from a host whose calls can want memory. The run is then of no further use.
    #[inline(always)]
    pub(crate) fn call<H: Host>(
        &mut self,
        calls: &[CallNo],
        function: u32,
        host: &mut H,
    ) -> Result<Option<Stop>, NoMemory>
        requires rows { AreRows calls.now }
        requires meets { (ops : List Op) × (ends : List ℕ) × (slice_get ops self.old.at ≡ Some (Op.Call function))
            × CanGo H ops ends calls.now self.old }
        requires place { self.old.at < 2 ^ 63 }
        requires words_room { length self.old.store.words.items < self.old.store.words.room }
        requires guards_room { length self.old.guards.items < self.old.guards.room }
        ensures goes { IfOk result
            (λ found. (ops : List Op) (ends : List ℕ) → slice_get ops self.old.at ≡ Some (Op.Call function) →
            Goes H (meaning_of H.answer H.memory_after H.state_after) calls.now ops ends self.old host.old found
            self.new host.new) }
        ensures grows { OnOk result (Widens self.old self.new) }
        ensures told { H.may_want host.new ≡ H.may_want host.old }
        ensures wants { IsErr result → IsTrue (H.may_want host.old) }
    {
        let number = calls[function as usize];
        match number.0 {
            0 => Ok(self.guard::<H>(function)),
            1 => Ok(self.finish::<H>(function, true)),
            2 => Ok(self.finish::<H>(function, false)),
            _ => {
                self.ask(function, number, host)?;
                Ok(None)
            }
        }
    }

    /// A call of `_g`.
    #[inline(always)]
    pub(crate) fn guard<S>(&mut self, function: u32) -> Option<Stop>
        requires meets { CanCall S guard function self.old }
        requires place { self.old.at < 2 ^ 63 }
        requires words_room { length self.old.store.words.items ≤ self.old.store.words.room }
        requires guards_room { length self.old.guards.items < self.old.guards.room }
        ensures turns { CallsIt S guard function self.old result self.new }
        ensures grows { Widens self.old self.new }
    {
        let limit = self.store.words.pop_narrow();
        let id = self.store.words.pop_narrow();
        let passes = self.guards.pass(id, limit);
        if passes {
            self.store.words.push(1);
            self.at += 1;
            None
        } else {
            Some(Stop::GuardViolated { id, limit })
        }
    }

    /// A call of `accept`, or of `rollback`. With a text outside the memory the run goes on.
    #[inline(always)]
    pub(crate) fn finish<S>(&mut self, function: u32, accepts: bool) -> Option<Stop>
        requires meets { CanCall S (ending_of accepts) function self.old }
        requires place { self.old.at < 2 ^ 63 }
        requires words_room { length self.old.store.words.items ≤ self.old.store.words.room }
        ensures turns { CallsIt S (ending_of accepts) function self.old result self.new }
        ensures grows { Widens self.old self.new }
    {
        let code = self.store.words.pop().cast_signed();
        let size = self.store.words.pop_narrow();
        let from = self.store.words.pop_narrow();
        match self.store.memory.read(from, size) {
            Some(_) => Some(told(accepts, Message { code, from, size })),
            None => {
                self.store.words.push(u64::MAX);
                self.at += 1;
                None
            }
        }
    }

    /// A call of the host.
    ///
    /// # Errors
    ///
    /// `NoMemory`, only from a host whose calls can want memory. The run is then of no further use.
    #[inline(never)]
    pub(crate) fn ask<H: Host>(
        &mut self,
        function: u32,
        number: CallNo,
        host: &mut H,
    ) -> Result<(), NoMemory>
        requires first { rollback_row < number.0 }
        requires last { number.0 ≤ 64 }
        requires meets { CanCall H (host_call number.0 (row_parameters number.0)) function self.old }
        requires place { self.old.at < 2 ^ 63 }
        requires words_room { length self.old.store.words.items < self.old.store.words.room }
        ensures asks { OnOk result (Asks H (meaning_of H.answer H.memory_after H.state_after)
            (host_call number.0 (row_parameters number.0)) function self.old host.old self.new host.new) }
        ensures grows { OnOk result (Widens self.old self.new) }
        ensures told { H.may_want host.new ≡ H.may_want host.old }
        ensures wants { IsErr result → IsTrue (H.may_want host.old) }
    {
        let count = call_parameters(number).len();
        let below = self.store.words.len() - count;
        let answer = host.call(number, self.store.words.last(count), &mut self.store.memory)?;
        self.store.words.cut(below);
        self.store.words.push(answer.cast_unsigned());
        self.at += 1;
        Ok(())
    }
}

/// The stop of `accept`, or of `rollback`.
fn told(accepts: bool, message: Message) -> Stop
    ensures accepts { IsTrue accepts → result ≡ Stop.Accepted message }
    ensures rolls_back { IsFalse accepts → result ≡ Stop.RolledBack message }
{
    if accepts {
        Stop::Accepted(message)
    } else {
        Stop::RolledBack(message)
    }
}
