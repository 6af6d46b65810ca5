//! What a replay does for each of its lines.
ghost use Rattle.std.specs.Prelude.{◌≡◌, IsTrue};
ghost use Rattle.hk_ledger.specs.Machine.{IsInRange};

use cases::{CaseFault, Words};
use hk_ledger::{Replay, Stepped};
use hk_lines::{InputLine, OutputLine, print_line, read_line};
use hk_state::Transactor;
use std::str;

const MOST_DROPS: u64 = 100_000_000_000_000_000;

/// What each line of a replay does under rules: the replay goes on or ends, and what it prints, or the rule that the
/// line breaks.
pub fn told<T: Transactor>(words: &mut Words<'_>, rules: &T) -> Result<String, CaseFault> {
    let alloc = words.alloc;
    let mut replay = Replay::new(alloc);
    let mut told = String::new(alloc);
    for _ in 0..u64::MAX {
        if words.end().is_ok() {
            break;
        }
        if !told.is_empty() {
            told.push_str(", ")?;
        }
        tell(words, &mut replay, rules, &mut told)?;
    }
    Ok(told)
}

// Tells what the next line does.
fn tell<T: Transactor>(
    words: &mut Words<'_>,
    replay: &mut Replay,
    rules: &T,
    told: &mut String,
) -> Result<(), CaseFault> {
    let alloc = words.alloc;
    let Ok(line) = read_line(alloc, words.word()?.as_bytes()) else {
        return Err(CaseFault::BadCase);
    };
    if !is_in_range(&line) {
        return Err(CaseFault::BadCase);
    }
    match replay.line(alloc, rules, &line)? {
        Stepped::Goes(lines) => tell_lines(told, "goes", lines.as_slice()),
        Stepped::Ends(lines) => tell_lines(told, "ends", lines.as_slice()),
        Stepped::Breaks(rule) => Ok(told.push_str(rule.name())?),
    }
}

fn is_in_range(line: &InputLine) -> bool
    ensures range { IsTrue result → IsInRange line.now }
{
    match line {
        InputLine::Account { balance, .. } => *balance <= MOST_DROPS,
        _ => true,
    }
}

/// A word, and lines as they are printed, without their line feeds.
pub fn tell_lines(told: &mut String, word: &str, lines: &[OutputLine]) -> Result<(), CaseFault> {
    told.push_str(word)?;
    for line in lines {
        let mut out = Vec::new(*told.allocator());
        print_line(&mut out, line)?;
        let text = str::from_utf8(&out).or(Err(CaseFault::BadCase))?;
        told.push(' ')?;
        told.push_str(text.trim_end())?;
    }
    Ok(())
}
