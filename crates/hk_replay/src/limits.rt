//! The limits on input.

/// The most bytes of input that are taken.
pub(crate) const LONGEST_INPUT: usize = 1_073_741_824;

/// The most bytes of a text that `asm` takes.
pub(crate) const LONGEST_TEXT: usize = 1_048_576;
