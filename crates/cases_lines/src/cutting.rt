//! How bytes are cut into lines.
use crate::reading::shown;
use cases::{CaseFault, Words};
use hk_lines::{CutLine, Cutter};
use std::alloc::Global;

/// The lines of bytes that come in pieces of a size, each with a bar behind it, and behind `<` what has no end yet.
pub fn cut(words: &mut Words<'_>) -> Result<String, CaseFault> {
    let size: usize = words.value()?;
    let bytes = words.bytes()?;
    let mut cutter = Cutter::new(words.alloc);
    let mut text = String::new(words.alloc);
    for piece in bytes.chunks(size.max(1)) {
        add_piece(words.alloc, &mut cutter, piece, &mut text)?;
    }
    if cutter.ready().is_some() {
        return Err(CaseFault::BadCase);
    }
    if let Some(rest) = cutter.rest() {
        text.push('<')?;
        add_line(words.alloc, &mut text, rest)?;
    }
    if text.is_empty() {
        text.push_str("nothing")?;
    }
    Ok(text)
}

// Adds the lines that a piece ends.
fn add_piece(
    alloc: Global,
    cutter: &mut Cutter,
    piece: &[u8],
    text: &mut String,
) -> Result<(), CaseFault> {
    let mut rest = piece;
    for _ in 0..piece.len() {
        if rest.is_empty() {
            return Ok(());
        }
        if cutter.ready().is_some() {
            return Err(CaseFault::BadCase);
        }
        let taken = cutter.feed(rest)?;
        rest = &rest[taken..];
        if let Some(line) = cutter.ready() {
            add_line(alloc, text, line)?;
            cutter.next();
        }
    }
    Ok(())
}

// Adds a line and a bar.
fn add_line(alloc: Global, text: &mut String, line: CutLine<'_>) -> Result<(), CaseFault> {
    match line {
        CutLine::Whole(bytes) => text.push_str(shown(alloc, bytes)?.as_str())?,
        CutLine::TooLong => text.push_str("TooLong")?,
    }
    text.push('|')?;
    Ok(())
}
