//! Why a line isn't read.
ghost use Rattle.std.specs.Prelude.{◌≡◌};
ghost use Rattle.hk_lines.specs.declared.line_fault.LineFault.TheVariants.{NoMemory};

use std::alloc::AllocError;

/// Why a line isn't read.
#[derive(Clone, Copy, Debug, PartialEq, Eq)]
pub enum LineFault {
    /// The line has more than 2,097,152 bytes.
    TooLong,
    /// The first word is the name of no form.
    BadWord,
    /// What follows the first word isn't what its form has.
    BadShape,
    NoMemory,
}

impl From<AllocError> for LineFault {
    ghost from_gives = { λ _ fault. fault ≡ NoMemory };

    fn from(_: AllocError) -> LineFault {
        LineFault::NoMemory
    }
}
