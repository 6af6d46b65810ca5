use std::alloc::{AllocError, AllocFailed};

/// Why a module is no hook: the first rule that it breaks, at the least place.
///
/// `index` counts the items of a section, `func` the defined functions, and `op` the instructions of a body, each from
/// 0.
#[derive(Clone, Copy, Debug, PartialEq, Eq)]
pub enum RuleFault {
    /// A type takes or gives a float.
    FloatType { index: u32 },
    /// A global is a float.
    FloatGlobal { index: u32 },
    /// A function has a run of float locals, maybe of none.
    FloatLocals { func: u32 },
    /// An instruction on floats, or a region whose result is a float.
    FloatCode { func: u32, op: u32 },
    /// An import that is no function of `env` with the name and the type of a call's row.
    BadImport { index: u32 },
    /// A type with more than one result.
    BadType { index: u32 },
    /// A function whose type isn't there.
    BadFunction { func: u32 },
    /// More than one table, or one whose greatest size is below its least.
    BadTable,
    /// More than one memory, or one whose sizes are too large or out of order.
    BadMemory,
    /// A global whose value isn't one constant of its type.
    BadGlobal { index: u32 },
    /// An export that is given twice or names nothing, a function under another name than `hook` and `cbak`,
    /// one of these two that is no defined function from i32 to i64, or no `hook`.
    BadExport,
    /// There is a start function.
    Start,
    /// There is an element segment.
    Elements,
    /// A data segment without a memory, at no constant place, or past the memory's end.
    BadData { index: u32 },
    /// A function with more than 4,096 parameters and locals.
    TooManyLocals { func: u32 },
    /// A `call_indirect`.
    IndirectCall { func: u32, op: u32 },
    /// A `memory.grow`.
    Grow { func: u32, op: u32 },
    /// A call of a function that is no import.
    OwnCall { func: u32, op: u32 },
    /// A call of `_g` without two `i32.const` directly before it.
    GuardNotConstant { func: u32, op: u32 },
    /// A loop whose body doesn't begin with two `i32.const` and a call of `_g`.
    LoopWithoutGuard { func: u32, op: u32 },
    /// Memory was wanted and there was none.
    NoMemory,
}

impl From<AllocError> for RuleFault {
    ghost use Rattle.std.specs.Prelude.{◌≡◌};
    ghost use Rattle.wa_ops.specs.declared.rule_fault.RuleFault.TheVariants.{NoMemory};

    ghost from_gives = { λ _ e. e ≡ NoMemory };

    fn from(_error: AllocError) -> RuleFault {
        RuleFault::NoMemory
    }
}

impl<T: Drop> From<AllocFailed<T>> for RuleFault {
    ghost use Rattle.std.specs.Prelude.{◌≡◌};
    ghost use Rattle.wa_ops.specs.declared.rule_fault.RuleFault.TheVariants.{NoMemory};

    ghost from_gives = { λ _ e. e ≡ NoMemory };

    fn from(_error: AllocFailed<T>) -> RuleFault {
        RuleFault::NoMemory
    }
}
