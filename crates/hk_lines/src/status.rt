//! How a call of the program ends.

/// How a call of the program ends.
#[derive(Clone, Copy, Debug, PartialEq, Eq)]
pub enum Status {
    /// The command did its work.
    Done,
    /// The words name no command.
    Usage,
    /// The input breaks a rule.
    BadInput,
    /// The source failed.
    ReadFault,
    /// The sink failed.
    WriteFault,
    NoMemory,
    /// The hook isn't accepted.
    HookRefused,
    /// As many bytes were taken as there may be, and the input didn't end.
    TooLong,
}
