//! The bytes of a text.
ghost use Rattle.std.specs.List.{position};
ghost use Rattle.std.specs.Prelude.{◌≡◌, ◌==◌, ◌≤◌, ◌<◌, ◌^◌, IfErr, IfOk, IfSome, MatchOption, length};
ghost use Rattle.hk_lines.specs.Cut.{behind, cut, whole};
ghost use Rattle.wa_encode.specs.Modules.{encoded};
ghost use Rattle.wa_text.specs.Draft.{Turned};
ghost use Rattle.wa_text.specs.Lines as lines;
ghost use Rattle.wa_text.specs.Meaning.{IsFault, MeansBytes, MeansSpelled, line_step, meaning, means};

use crate::draft::{Draft, Turn};
use crate::fault::AsmFault;
use crate::lines::read_text_line;
use std::alloc::Global;
use wa_encode::encode;
use wa_ops::{Module, NoMemory};

/// The bytes of the module that a text of at most 1,048,576 bytes means. What comes behind its `done` line changes
/// nothing.
///
/// # Errors
///
/// `Bad` with the first line that is wrong and the first rule that it breaks, `NoDone` where every line is right and
/// none is `done`, and want of memory.
pub fn assemble(alloc: Global, text: &[u8]) -> Result<Vec<u8>, AsmFault>
    requires size { length text.now ≤ 1048576 }
    ensures ok { IfOk result (λ bytes. MeansBytes (meaning text.now) bytes.items) }
    ensures spells { IfOk result (λ bytes. MeansSpelled (meaning text.now) bytes.items) }
    ensures err { IfErr result (λ fault. IsFault (meaning text.now) fault) }
{
    let module = read_module(alloc, text)?;
    Ok(encode(alloc, &module)?)
}

/// The module that a text of at most 1,048,576 bytes means.
///
/// # Errors
///
/// Those of `assemble`.
pub fn read_module(alloc: Global, text: &[u8]) -> Result<Module, AsmFault>
    requires size { length text.now ≤ 1048576 }
    ensures ok { IfOk result (λ found. meaning text.now ≡ means found) }
    ensures err { IfErr result (λ fault. IsFault (meaning text.now) fault) }
{
    let mut draft = Draft::new(alloc)?;
    let mut number = 1u32;
    let mut rest = text;
    while let Some((line, more)) = first_line(rest) {
        match take_line(alloc, &mut draft, line)? {
            Turn::Goes => {}
            Turn::Ends => return Ok(whole_module(draft)),
            Turn::Wrong(rule) => return Err(AsmFault::Bad { line: number, rule }),
        }
        number += 1;
        rest = more;
    }
    if rest.is_empty() {
        return Err(AsmFault::NoDone { line: number });
    }
    match take_line(alloc, &mut draft, rest)? {
        Turn::Goes => Err(AsmFault::NoDone { line: number + 1 }),
        Turn::Ends => Ok(whole_module(draft)),
        Turn::Wrong(rule) => Err(AsmFault::Bad { line: number, rule }),
    }
}

fn whole_module(draft: Draft) -> Module
    ensures whole { result ≡ draft.module }
{
    let Draft {
        part: _,
        module,
        body: _,
    } = draft;
    module
}

/// The bytes in front of the first line feed, and those behind it.
fn first_line(bytes: &[u8]) -> Option<(&[u8], &[u8])>
    ensures line { MatchOption result (cut bytes.now ≡ behind bytes.now)
        (λ found. cut bytes.now ≡ whole found.0.now (cut found.1.now)) }
    ensures shorter { IfSome result (λ found. length found.1.now < length bytes.now) }
{
    let Some(at) = line_feed(bytes) else {
        return None;
    };
    Some((&bytes[..at], &bytes[at + 1..]))
}

/// The place of the first line feed.
fn line_feed(bytes: &[u8]) -> Option<usize>
    ensures place { result ≡ position (λ byte. byte == 10) bytes.now }
{
    bytes.iter().position(|byte| *byte == b'\n')
}

/// What a line does, which may have a carriage return at its end and spaces at its front.
fn take_line(alloc: Global, draft: &mut Draft, line: &[u8]) -> Result<Turn, NoMemory>
    requires room { length draft.old.module.imports < 2 ^ 31 }
    ensures step { IfOk result (λ turn. Turned turn draft.new (line_step draft.old (lines.shown line.now))) }
{
    let line = shown(line);
    let [first, ..] = line else {
        return Ok(Turn::Goes);
    };
    if *first == b'#' {
        return Ok(Turn::Goes);
    }
    match read_text_line(alloc, line)? {
        Ok(line) => draft.take(alloc, line),
        Err(rule) => Ok(Turn::Wrong(rule)),
    }
}

/// A line without the carriage return at its end and the spaces at its front.
fn shown(line: &[u8]) -> &[u8]
    ensures shown { result.now ≡ lines.shown line.now }
{
    without_spaces(line.strip_suffix(b"\r").unwrap_or(line))
}

fn without_spaces(line: &[u8]) -> &[u8]
    ensures rest { result.now ≡ lines.without_spaces line.now }
{
    let mut rest = line;
    while let [b' ', after @ ..] = rest {
        rest = after;
    }
    rest
}
