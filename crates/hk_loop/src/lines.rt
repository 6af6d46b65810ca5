//! One line is run.
ghost use Rattle.std.specs.Prelude.{◌≡◌, ◌<◌, ◌^◌, List, ℕ, IfOk};
ghost use Rattle.hk_lines.specs.Cut.{behind, trim, is_skipped};
ghost use Rattle.hk_lines.specs.Cutting.{IsUnfinished, Shows};
ghost use Rattle.hk_lines.specs.Given.{Given, after, too_long, ended, given_line, given_from};
ghost use Rattle.hk_lines.specs.Reached.{state_line, state_last};
ghost use Rattle.hk_loop.specs.Turned.{led, LeadsOn, StopsWell};
ghost use Rattle.hk_loop.specs.Answers.{IsEnd};

use crate::{Command, Turned};
use hk_base::NoMemory;
use hk_lines::{CutLine, Cutter, Rule, Status, push_bad};
use std::alloc::Global;

/// Runs the line with this number and appends what it prints, its `bad` line where it is wrong. The answer is the
/// status where the command ends.
pub(crate) fn run_line<C: Command>(
    alloc: Global,
    command: &mut C,
    number: u64,
    line: CutLine<'_>,
    out: &mut Vec<u8>,
) -> Result<Option<Status>, NoMemory>
    ensures given { IfOk result (λ stop. (raw : List ℕ) → Shows raw line.entry → (later : C → Given) →
        after out.old.items (given_line C.turn command.old number (trim raw) later)
        ≡ led stop out.new.items (later command.new)) }
    ensures reached { IfOk result (λ stop. (raw : List ℕ) → Shows raw line.entry → (later : C → C) →
        LeadsOn C.keeps stop (state_line C.turn command.old (trim raw) later) (later command.new) command.new) }
    ensures well { IfOk result (λ stop. StopsWell stop) }
{
    match line {
        CutLine::TooLong => {
            push_bad(alloc, number, Rule::LineTooLong, out)?;
            Ok(Some(Status::BadInput))
        }
        CutLine::Whole(text) => {
            if is_skipped(text) {
                return Ok(None);
            }
            match command.line(alloc, text, out)? {
                Turned::Goes => Ok(None),
                Turned::Ends(status) => Ok(Some(status)),
                Turned::Wrong(rule) => {
                    push_bad(alloc, number, rule, out)?;
                    Ok(Some(Status::BadInput))
                }
            }
        }
    }
}

/// Runs what is left at the end of the input and appends what it prints. The answer is the status.
pub(crate) fn run_rest<C: Command>(
    alloc: Global,
    command: &mut C,
    number: u64,
    cutter: &Cutter,
    out: &mut Vec<u8>,
) -> Result<Status, NoMemory>
    requires unfinished { IsUnfinished cutter.now }
    requires fits { number < 2 ^ 63 }
    ensures given { IfOk result (λ status.
        after out.old.items (given_from C.turn command.old number (behind cutter.now) ended)
        ≡ led (Some status) out.new.items too_long) }
    ensures kept { IfOk result (λ status. status ≡ Status.Done →
        C.keeps (state_last C.turn command.old cutter.now) command.new) }
    ensures well { IfOk result (λ status. IsEnd status) }
{
    match cutter.rest() {
        None => {
            push_bad(alloc, number, Rule::NoEnd, out)?;
            Ok(Status::BadInput)
        }
        Some(line) => match run_line(alloc, command, number, line, out)? {
            Some(status) => Ok(status),
            None => {
                push_bad(alloc, number + 1, Rule::NoEnd, out)?;
                Ok(Status::BadInput)
            }
        },
    }
}

// Empty lines and lines that begin with `#` are skipped.
fn is_skipped(line: &[u8]) -> bool
    ensures skipped { result ≡ is_skipped line.now }
{
    match line.first() {
        None => true,
        Some(byte) => *byte == b'#',
    }
}
