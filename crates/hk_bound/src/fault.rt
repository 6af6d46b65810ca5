use hk_rules::RuleFault;
use std::alloc::AllocError;

/// Why a code is refused: the first of these that holds, `hook` before `cbak`.
#[derive(Clone, Copy, Debug, PartialEq, Eq)]
pub enum CheckFault {
    /// The code is longer than 65,535 bytes.
    TooLong,
    /// The bytes spell no module, or in version 0 one with a sign extension operator.
    Malformed,
    /// The module breaks a rule.
    Rule(RuleFault),
    /// The first function that isn't well typed, counted among those that the module defines, and the first of its
    /// instructions at which typing fails.
    Untyped { func: u32, op: u32 },
    /// The bound of an exported function is above 65,535 in version 0, above 262,143 in version 1.
    BoundTooLarge { export: Export, bound: u64 },
    /// Memory was wanted and there was none.
    NoMemory,
}

/// A function that a hook exports.
#[derive(Clone, Copy, Debug, PartialEq, Eq)]
pub enum Export {
    Hook,
    Cbak,
}

impl From<AllocError> for CheckFault {
    ghost use Rattle.hk_bound.specs.declared.fault.CheckFault.TheVariants.{NoMemory};
    ghost use Rattle.std.specs.Prelude.{◌≡◌};

    ghost from_gives = { λ _ e. e ≡ NoMemory };

    fn from(_error: AllocError) -> CheckFault {
        CheckFault::NoMemory
    }
}
