//! Bytes that come in pieces are cut into lines.
ghost use Rattle.std.specs.Prelude.{◌≡◌, ◌<◌, ◌≤◌, ◌⊎◌, ◌++◌, [], List, ℕ, length, take, MatchOption, IfOk, IfSome};
ghost use Rattle.std.specs.Prelude.{OnErr};
ghost use Rattle.hk_lines.specs.Cut.{cut, behind, whole};
ghost use Rattle.hk_lines.specs.Cutting.{IsUnfinished, IsReady, IsHeld, Shows, ShowsReady};

use crate::limits::{ENDLESS_LINE, LONGEST_LINE};
use hk_base::NoMemory;
use std::alloc::Global;
use std::marker::Model;

/// A line of input.
#[derive(Clone, Copy, Debug)]
pub enum CutLine<'a> {
    /// The line, without its line feed and the carriage return before it.
    Whole(&'a [u8]),
    /// A line of more than 2,097,152 bytes.
    TooLong,
}

/// What cuts the bytes of pieces into lines. It holds one line at most.
///
/// Whatever the pieces are, the lines and the rest are those of the joined bytes, up to and with the first that is too
/// long.
#[derive(Drop)]
pub struct Cutter {
    held: Vec<u8>,
}

impl Model for Cutter {
    ghost use Rattle.std.specs.Prelude.{List, ℕ};

    ghost Value = { List ℕ };

    ghost use Rattle.hk_lines.specs.Cutting.{IsHeld};

    ghost view = { λ cutter. cutter.held.items };

    ghost invariant = { λ cutter. IsHeld cutter.held.items };
}

impl Cutter {
    /// Holds nothing. It takes no memory.
    pub fn new(alloc: Global) -> Cutter
        ensures nothing { result ≡ [] }
    {
        Cutter {
            held: Vec::new(alloc),
        }
    }

    /// Takes bytes from the front of a piece and answers how many, at least one: those up to and with the first line
    /// feed, or fewer where the line then has 2,097,154 bytes without one. A refused call takes nothing.
    pub fn feed(&mut self, piece: &[u8]) -> Result<usize, NoMemory>
        requires some { 0 < length piece.now }
        requires unfinished { IsUnfinished self.old }
        ensures some { IfOk result (λ count. 0 < count) }
        ensures most { IfOk result (λ count. count ≤ length piece.now) }
        ensures taken { IfOk result (λ count. self.new ≡ self.old ++ take count piece.now) }
        ensures all { IfOk result (λ count. IsUnfinished self.new → count ≡ length piece.now) }
        ensures held { IfOk result (λ _. IsHeld self.new) }
        ensures err { OnErr result (self.new ≡ self.old) }
    {
        let room = ENDLESS_LINE - self.held.len();
        let count = line_size(&piece[..room.min(piece.len())]);
        self.held.extend_from_slice(&piece[..count])?;
        Ok(count)
    }

    /// The line that stands ready; none exactly where neither a line feed nor 2,097,154 bytes were taken since the last
    /// one. It takes no memory.
    pub fn ready(&self) -> Option<CutLine<'_>>
        ensures line { MatchOption result (IsUnfinished self.now) (λ line. ShowsReady self.now line) }
        ensures stands { IfSome result (λ _. IsReady self.now) }
    {
        match self.held.as_slice().strip_suffix(b"\n") {
            Some(line) => Some(shown(line)),
            None if self.held.len() == ENDLESS_LINE => Some(CutLine::TooLong),
            None => None,
        }
    }

    /// Forgets the line that stands ready. It takes no memory.
    pub fn next(&mut self)
        requires ready { IsReady self.old }
        ensures nothing { self.new ≡ [] }
    {
        self.held.clear();
    }

    /// The unfinished line at the end of the input; none exactly where it has no bytes. It takes no memory.
    pub fn rest(&self) -> Option<CutLine<'_>>
        requires unfinished { IsUnfinished self.now }
        ensures line { MatchOption result (self.now ≡ []) (λ line. (0 < length self.now) × Shows self.now line) }
    {
        if self.held.is_empty() {
            None
        } else {
            Some(shown(&self.held))
        }
    }
}

// A line without its carriage return, or that it is too long.
fn shown(line: &[u8]) -> CutLine<'_>
    ensures shows { Shows line.now result }
{
    let text = line.strip_suffix(b"\r").unwrap_or(line);
    if text.len() <= LONGEST_LINE {
        CutLine::Whole(text)
    } else {
        CutLine::TooLong
    }
}

// How many bytes there are up to and with the first line feed, or all.
fn line_size(piece: &[u8]) -> usize
    ensures some { 0 < length piece.now → 0 < result }
    ensures most { result ≤ length piece.now }
    ensures cut { ((cut (take result piece.now) ≡ behind (take result piece.now)) × (result ≡ length piece.now))
        ⊎ ((line : List ℕ) × (cut (take result piece.now) ≡ whole line (behind []))) }
{
    for (at, byte) in piece.iter().enumerate() {
        if *byte == b'\n' {
            return at + 1;
        }
    }
    piece.len()
}
