//! A command goes on by one read.
ghost use Rattle.std.specs.Prelude.{◌≡◌, ◌≢◌, ◌≤◌, ◌<◌, ◌+◌, ◌^◌, length, take, IfOk, IfErr, OnErr};
ghost use Rattle.std.specs.Io.KnownBytes.{Consumes, IsAtEnd, Keeps};
ghost use Rattle.hk_base.specs.Outside.{Rose};
ghost use Rattle.hk_lines.specs.Cutting.{IsUnfinished};
ghost use Rattle.hk_loop.specs.Causes.{HasCause};
ghost use Rattle.hk_loop.specs.Going.{GoesOn, StopsAt};

use crate::Command;
use crate::pieces::{finish, run_piece};
use hk_base::{Failed, Sink, Source};
use hk_lines::{Cutter, Status};
use std::alloc::Global;

/// The most bytes that one read takes.
pub(crate) const PIECE: usize = 4096;

/// Reads once, takes the bytes and writes what their lines print; the answer is how many bytes there were, at least
/// one. An error is the status where the command or its input ends, or what stopped it.
pub(crate) fn read_piece<C: Command, S: Source, K: Sink>(
    alloc: Global,
    room: usize,
    command: &mut C,
    cutter: &mut Cutter,
    number: &mut u64,
    source: &mut S,
    sink: &mut K,
) -> Result<usize, Status>
    requires some { 0 < room }
    requires unfinished { IsUnfinished cutter.old }
    requires fits { number.old < 2 ^ 62 }
    ensures goes { IfOk result (λ count. GoesOn C.turn count room
        command.old number.old cutter.old (S.left source.old) (K.written sink.old)
        command.new number.new cutter.new (S.left source.new) (K.written sink.new)) }
    ensures stops { IfErr result (λ status. StopsAt C.turn C.keeps status room command.old number.old cutter.old
        (S.left source.old) (K.written sink.old) command.new (S.left source.new) (K.written sink.new)) }
    ensures no_usage { IfErr result (λ status. status ≢ Status.Usage) }
    ensures source_count { S.faults source.old ≤ S.faults source.new }
    ensures sink_count { K.faults sink.old ≤ K.faults sink.new }
    ensures cause { IfErr result (λ status.
        HasCause status (S.faults source.old) (S.faults source.new) (K.faults sink.old) (K.faults sink.new)) }
{
    let mut buffer = [0; PIECE];
    let count = match read_some(source, &mut buffer, room) {
        Ok(count) => count,
        Err(Failed) => return Err(Status::ReadFault),
    };
    if count == 0 {
        return Err(finish(alloc, command, cutter, *number, sink));
    }
    match run_piece(alloc, command, cutter, number, &buffer[..count], sink) {
        Ok(()) => Ok(count),
        Err(status) => Err(status),
    }
}

/// Reads at most so many bytes into the front of the buffer.
pub(crate) fn read_some<S: Source>(
    source: &mut S,
    buffer: &mut [u8],
    most: usize,
) -> Result<usize, Failed>
    requires some { 0 < most }
    requires room { 0 < length buffer.old }
    ensures most { IfOk result (λ count. count ≤ most) }
    ensures within { IfOk result (λ count. count ≤ length buffer.new) }
    ensures moved { IfOk result (λ count. Consumes (S.left source.old) (S.left source.new) (take count buffer.new)) }
    ensures end { IfOk result (λ count. count ≡ 0 → IsAtEnd (S.left source.new)) }
    ensures kept { OnErr result (Keeps (S.left source.old) (S.left source.new)) }
    ensures later { S.faults source.old ≤ S.faults source.new }
    ensures failed { OnErr result (Rose (S.faults source.old) (S.faults source.new)) }
{
    let room = most.min(buffer.len());
    source.read(&mut buffer[..room])
}
