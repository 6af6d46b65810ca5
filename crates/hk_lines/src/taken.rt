//! The lines that a command takes, by their first words.
ghost use Rattle.std.specs.Prelude.{◌≡◌, ◌||◌, ◌⊎◌, Err, eqb};
ghost use Rattle.std.specs.List.{starts_with};
ghost use Rattle.std.specs.Str.{bytes_eq};
ghost use Rattle.hk_lines.specs.Taken.{read_if, rule_of};

use crate::{InputLine, LineFault, Rule, read_line};
use std::alloc::Global;

/// Whether a line is this word, or begins with it and a space, as `spaced` does.
pub fn begins(line: &[u8], word: &[u8], spaced: &[u8]) -> bool
    ensures begins { result ≡ (bytes_eq line.now word.now || starts_with eqb line.now spaced.now) }
{
    line == word || line.starts_with(spaced)
}

/// Reads a line, where the command takes its first word; else it is a bad word, whatever its shape.
pub fn read_if(alloc: Global, taken: bool, line: &[u8]) -> Result<InputLine, LineFault>
    ensures read { (result ≡ read_if taken line.now) ⊎ (result ≡ Err LineFault.NoMemory) }
{
    if !taken {
        return Err(LineFault::BadWord);
    }
    read_line(alloc, line)
}

/// The rule that a line breaks which isn't read.
pub fn rule_of(fault: LineFault) -> Rule
    ensures rule { result ≡ rule_of fault }
{
    match fault {
        LineFault::BadWord => Rule::BadWord,
        LineFault::BadShape => Rule::BadShape,
        LineFault::TooLong | LineFault::NoMemory => Rule::LineTooLong,
    }
}
