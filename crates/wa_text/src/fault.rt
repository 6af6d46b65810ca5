//! Why a text gave no module.
ghost use Rattle.std.specs.Prelude.{◌≡◌};
ghost use Rattle.wa_text.specs.declared.fault.AsmFault.TheVariants.{NoMemory};

use std::alloc::AllocError;

/// The rule that a line breaks, by the first that it breaks.
#[derive(Clone, Copy, Debug, PartialEq, Eq)]
pub enum AsmRule {
    /// No line begins with its first word.
    BadWord,
    /// Its parts aren't those of its first word.
    BadShape,
    /// It may not stand there.
    BadOrder,
    /// An import that is no row of the calls, or a call of a name that wasn't imported.
    UnknownName,
    /// An import a second time.
    RepeatedName,
    /// An `else` or `end` with no region that it belongs to, or a `close` in a region.
    Unbalanced,
}

/// Why a text gave no module.
#[derive(Clone, Copy, Debug, PartialEq, Eq)]
pub enum AsmFault {
    /// The first line that is wrong, and its rule.
    Bad { line: u32, rule: AsmRule },
    /// There is no `done` line; the line is the one that would come next.
    NoDone { line: u32 },
    /// Memory was wanted and there was none.
    NoMemory,
}

impl From<AllocError> for AsmFault {
    ghost from_gives = { λ _ fault. fault ≡ NoMemory };

    fn from(_: AllocError) -> AsmFault {
        AsmFault::NoMemory
    }
}
