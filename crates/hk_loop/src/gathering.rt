//! All bytes of an input at once.
ghost use Rattle.std.specs.Prelude.{◌≡◌, ◌≤◌, ◌<◌, ◌++◌, ◌^◌, [], List, ℕ, length, IfErr, IfOk};
ghost use Rattle.std.specs.Io.KnownBytes.{Consumes, IsAtEnd};
ghost use Rattle.hk_base.specs.Outside.{Rose};
ghost use Rattle.hk_loop.specs.Gathered.{Gathered, Halted};

use crate::going::{PIECE, read_some};
use hk_base::{Failed, Source};
use hk_lines::Status;
use std::alloc::Global;

/// Takes the source's bytes to the end of input, or as many as may be.
///
/// # Errors
///
/// The status `ReadFault` where a read failed, and `NoMemory`.
pub fn gather<S: Source>(alloc: Global, limit: usize, source: &mut S) -> Result<Vec<u8>, Status>
    requires limit { limit < 2 ^ 60 }
    ensures gathered { IfOk result (λ bytes. Gathered limit bytes.items (S.left source.old) (S.left source.new)) }
    ensures halted { IfErr result (λ status. Halted limit status (S.left source.old) (S.left source.new)) }
    ensures count { S.faults source.old ≤ S.faults source.new }
    ensures cause { IfErr result (λ status. status ≡ Status.ReadFault →
        Rose (S.faults source.old) (S.faults source.new)) }
{
    let mut bytes = Vec::new(alloc);
    while bytes.len() < limit {
        let count = gather_piece(limit - bytes.len(), &mut bytes, source)?;
        if count == 0 {
            return Ok(bytes);
        }
    }
    Ok(bytes)
}

// Reads once, and keeps the bytes; the answer is how many there were.
fn gather_piece<S: Source>(
    room: usize,
    bytes: &mut Vec<u8>,
    source: &mut S,
) -> Result<usize, Status>
    requires some { 0 < room }
    ensures kept { IfOk result (λ count. (piece : List ℕ) × (bytes.new.items ≡ bytes.old.items ++ piece)
        × (length piece ≡ count) × (count ≤ room) × Consumes (S.left source.old) (S.left source.new) piece) }
    ensures end { IfOk result (λ count. count ≡ 0 → IsAtEnd (S.left source.new)) }
    ensures halted { IfErr result (λ status. Halted room status (S.left source.old) (S.left source.new)) }
    ensures count { S.faults source.old ≤ S.faults source.new }
    ensures cause { IfErr result (λ status. status ≡ Status.ReadFault →
        Rose (S.faults source.old) (S.faults source.new)) }
{
    let mut buffer = [0; PIECE];
    let count = match read_some(source, &mut buffer, room) {
        Ok(count) => count,
        Err(Failed) => return Err(Status::ReadFault),
    };
    match bytes.extend_from_slice(&buffer[..count]) {
        Ok(()) => Ok(count),
        Err(_) => Err(Status::NoMemory),
    }
}
