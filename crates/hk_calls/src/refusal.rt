ghost use Rattle.std.specs.Prelude.{◌≡◌};
ghost use Rattle.hk_calls.specs.declared.refusal.Refusal.TheVariants as refusal;

use crate::code::Code;
use std::alloc::AllocError;

/// Why a call gives no answer of its own.
#[derive(Clone, Copy, Debug, PartialEq, Eq)]
pub enum Refusal {
    /// A condition of its row fails; the call answers this code.
    Code(Code),
    /// There was no memory for it.
    NoMemory,
}

impl From<Code> for Refusal {
    ghost from_gives = { λ code e. e ≡ refusal.Code code };

    fn from(code: Code) -> Refusal {
        Refusal::Code(code)
    }
}

impl From<AllocError> for Refusal {
    ghost from_gives = { λ _ e. e ≡ refusal.NoMemory };

    fn from(_error: AllocError) -> Refusal {
        Refusal::NoMemory
    }
}
