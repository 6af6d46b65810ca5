//! The first words of lines.
ghost use Rattle.std.specs.Prelude.{◌≡◌};
ghost use Rattle.hk_replay.specs.Words.{is_replay_line, is_hook_line};

use hk_lines::begins;

/// Whether a line begins as one of a replay.
pub(crate) fn is_replay_line(line: &[u8]) -> bool
    ensures is { result ≡ is_replay_line line.now }
{
    begins(line, b"account", b"account ")
        || (begins(line, b"ledger", b"ledger ")
            || (begins(line, b"tx", b"tx ") || begins(line, b"end", b"end ")))
}

/// Whether a line begins as one of those with one hook.
pub(crate) fn is_hook_line(line: &[u8]) -> bool
    ensures is { result ≡ is_hook_line line.now }
{
    begins(line, b"hook", b"hook ") || begins(line, b"end", b"end ")
}
