//! The answer to a text.
ghost use Rattle.std.specs.Prelude.{◌≡◌, ◌≤◌, length, IfOk};
ghost use Rattle.hk_lines.specs.Given.{ended};
ghost use Rattle.hk_asm.specs.Assembling as assembling;
ghost use Rattle.hk_asm.specs.Assembling.{asm_given, broken, hook_lines, told, undone, Tells};
ghost use Rattle.wa_text.specs.Meaning.{meaning};

use crate::rule::broken_line;
use hk_base::{NoMemory, push_hex};
use hk_lines::{Rule, Status, push_bad, too_long_line};
use std::alloc::{AllocError, Global};
use wa_text::{AsmFault, AsmRule, assemble};

/// The bytes of input that are taken.
const LONGEST_TEXT: usize = 1_048_576;

/// A text to print, and a status.
#[derive(Debug, Drop)]
pub struct Answer {
    pub text: Vec<u8>,
    pub status: Status,
}

/// What `asm` answers to a text of at most 1,048,576 bytes, behind which the input ends or, where it has so many, is
/// not looked at: the lines of the hook that it means, else `bad` with the first line that is wrong and its rule.
///
/// # Errors
///
/// Want of memory.
pub fn answer_text(alloc: Global, text: &[u8]) -> Result<Answer, NoMemory>
    requires size { length text.now ≤ 1048576 }
    ensures answer { IfOk result (λ answer. Tells (asm_given text.now ended) answer.text.items answer.status) }
{
    if text.len() < LONGEST_TEXT {
        return answer_lines(alloc, false, text);
    }
    answer_lines(alloc, true, whole_lines(text))
}

// What is answered to lines, by whether the limit was reached.
fn answer_lines(alloc: Global, is_full: bool, text: &[u8]) -> Result<Answer, NoMemory>
    requires size { length text.now ≤ 1048576 }
    ensures answer { IfOk result (λ answer. Tells (told is_full (meaning text.now)) answer.text.items answer.status) }
{
    match assemble(alloc, text) {
        Ok(code) => hook_answer(alloc, code.as_slice()),
        Err(AsmFault::Bad { line, rule }) => broken_answer(alloc, line, rule),
        Err(AsmFault::NoDone { line }) => undone_answer(alloc, is_full, line),
        Err(AsmFault::NoMemory) => Err(AllocError),
    }
}

// The lines that `check` and `run` take.
fn hook_answer(alloc: Global, code: &[u8]) -> Result<Answer, NoMemory>
    ensures answer { IfOk result (λ answer. (answer.text.items ≡ hook_lines code.now) × (answer.status ≡ Status.Done)) }
{
    let mut text = Vec::from_slice(alloc, b"hook ")?;
    push_hex(&mut text, code)?;
    text.extend_from_slice(b"\nend\n")?;
    Ok(Answer {
        text,
        status: Status::Done,
    })
}

fn broken_answer(alloc: Global, line: u32, rule: AsmRule) -> Result<Answer, NoMemory>
    ensures answer { IfOk result (λ answer. Tells (broken line rule) answer.text.items answer.status) }
{
    let line = broken_line(alloc, line, rule)?;
    Ok(Answer {
        text: Vec::from_slice(alloc, line.as_bytes())?,
        status: Status::BadInput,
    })
}

fn undone_answer(alloc: Global, is_full: bool, line: u32) -> Result<Answer, NoMemory>
    ensures answer { IfOk result (λ answer. Tells (undone is_full line) answer.text.items answer.status) }
{
    if is_full {
        return Ok(Answer {
            text: Vec::from_slice(alloc, too_long_line())?,
            status: Status::TooLong,
        });
    }
    let mut text = Vec::new(alloc);
    push_bad(alloc, u64::from(line), Rule::NoEnd, &mut text)?;
    Ok(Answer {
        text,
        status: Status::BadInput,
    })
}

// The bytes up to the last line feed.
fn whole_lines(text: &[u8]) -> &[u8]
    ensures lines { result.now ≡ assembling.whole_lines text.now }
    ensures shorter { length result.now ≤ length text.now }
{
    let mut rest = text;
    while let [front @ .., last] = rest {
        if *last == b'\n' {
            return rest;
        }
        rest = front;
    }
    rest
}
