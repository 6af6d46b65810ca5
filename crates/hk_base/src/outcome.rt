//! How a run of a hook ends.

use crate::Items;

/// Why a run was stopped by the machine.
#[derive(Clone, Copy, Debug, PartialEq, Eq)]
pub enum Trap {
    /// The instruction `unreachable`.
    Unreachable,
    /// A division or a remainder by 0.
    DivideByZero,
    /// The least number divided by -1, signed.
    DivideOverflow,
    /// An access past the end of the memory.
    Memory,
}

/// How a run of a hook ends.
#[derive(Debug, Drop)]
pub enum Outcome {
    /// The hook called `accept` with this code and text.
    Accepted { code: i64, text: Items<u8> },
    /// The hook called `rollback` with this code and text.
    RolledBack { code: i64, text: Items<u8> },
    /// The hook's function returned this number.
    Returned { code: i64 },
    /// The machine stopped the run.
    Trapped(Trap),
    /// The guard with this id was passed more often than its limit allows.
    GuardViolated { id: u32, limit: u32 },
}
