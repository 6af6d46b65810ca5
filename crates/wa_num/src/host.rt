ghost use Rattle.std.specs.Prelude.{◌≡◌, ℕ, ◌<◌, ◌≤◌, ℤ, Bool, List, length, IfOk, IsErr, IsTrue, OnOk};
ghost use Rattle.wa_ops.specs.Callees.{AreArguments};
ghost use Rattle.wa_ops.specs.Rows.{rollback_row, row_parameters};

use crate::memory::Memory;
use wa_ops::{CallNo, NoMemory};

/// What a run calls beyond its own module: the rows of the table of API calls behind those of the guard, `accept` and
/// `rollback`.
///
/// Its meaning is a definition of its own: from the state before, the row, the arguments and the memory it gives the
/// answer, the memory after and the state after.
pub trait Host {
    /// The answer, as a signed 64-bit number.
    ghost answer: { Self → ℕ → List ℕ → List ℕ → ℤ };

    ghost memory_after: { Self → ℕ → List ℕ → List ℕ → List ℕ };

    ghost state_after: { Self → ℕ → List ℕ → List ℕ → Self };

    /// Whether a call can want memory.
    ghost may_want: { Self → Bool };

    ghost keeps_length: { (host : Self) (row : ℕ) (arguments memory : List ℕ) →
        length (memory_after host row arguments memory) ≡ length memory };

    /// Makes the call of row `number`, with as many arguments as it has parameters, in order. An i32 stands with zeros
    /// above its 32 bits.
    ///
    /// # Errors
    ///
    /// `NoMemory`, only from a host that tells that its calls can want memory. It is then of no further use.
    fn call(
        &mut self,
        number: CallNo,
        arguments: &[u64],
        memory: &mut Memory,
    ) -> Result<i64, NoMemory>
        requires first { rollback_row < number.0 }
        requires last { number.0 ≤ 64 }
        requires arguments { AreArguments (row_parameters number.0) arguments.now }
        ensures answer { IfOk result (λ given. given ≡ answer self.old number.0 arguments.now memory.old) }
        ensures memory { OnOk result (memory.new ≡ memory_after self.old number.0 arguments.now memory.old) }
        ensures state { OnOk result (self.new ≡ state_after self.old number.0 arguments.now memory.old) }
        ensures told { may_want self.new ≡ may_want self.old }
        ensures wants { IsErr result → IsTrue (may_want self.old) };
}
