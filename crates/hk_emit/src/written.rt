//! Bytes that are written one behind the other.
ghost use Rattle.std.specs.Prelude.{◌≡◌, ◌+◌, ◌≤◌, [], ◌++◌, length, take};

use std::marker::Model;

/// The most bytes of EmitDetails.
pub(crate) const LONGEST_DETAILS: usize = 138;

/// The bytes written so far.
#[derive(Drop)]
pub(crate) struct Written {
    bytes: [u8; LONGEST_DETAILS],
    size: usize,
}

impl Model for Written {
    ghost use Rattle.std.specs.Prelude.{List, ℕ, ◌≤◌, take};

    ghost Value = { List ℕ };

    ghost view = { λ written. take written.size written.bytes };

    ghost invariant = { λ written. written.size ≤ 138 };
}

impl Written {
    pub(crate) fn new() -> Written
        ensures empty { result ≡ [] }
    {
        Written {
            bytes: [0; LONGEST_DETAILS],
            size: 0,
        }
    }

    pub(crate) fn put(&mut self, piece: &[u8])
        requires room { length self.old + length piece.now ≤ 138 }
        ensures behind { self.new ≡ self.old ++ piece.now }
    {
        let end = self.size + piece.len();
        self.bytes[self.size..end].copy_from_slice(piece);
        self.size = end;
    }

    pub(crate) fn as_slice(&self) -> &[u8]
        ensures bytes { result.now ≡ self.now }
    {
        &self.bytes[..self.size]
    }

    /// All places, and how many of them are written.
    pub(crate) fn into_parts(self) -> ([u8; LONGEST_DETAILS], usize)
        ensures size { result.1 ≡ length self }
        ensures bytes { take result.1 result.0 ≡ self }
    {
        let Written { bytes, size } = self;
        (bytes, size)
    }
}
