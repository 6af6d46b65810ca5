//! The limits on lines.

/// The most bytes of a line, without its line feed and the carriage return before it.
pub(crate) const LONGEST_LINE: usize = 2_097_152;

/// So many bytes without a line feed are too long for a line, whatever follows them.
pub(crate) const ENDLESS_LINE: usize = 2_097_154;

/// The most drops of a balance.
pub(crate) const MOST_DROPS: u64 = 100_000_000_000_000_000;
