//! The lines of one piece are run.
ghost use Rattle.std.specs.Prelude.{◌≡◌, ◌≢◌, ◌+◌, ◌<◌, ◌≤◌, ◌^◌, length, drop, IfOk, IfErr, OnOk};
ghost use Rattle.hk_lines.specs.Cut.{Cut, behind, cut, begun, joined};
ghost use Rattle.hk_lines.specs.Cutting.{IsUnfinished};
ghost use Rattle.hk_lines.specs.Given.{Close, ended, after, given_from};
ghost use Rattle.hk_loop.specs.Answers.{IsAnswer, WroteFront, Gave};
ghost use Rattle.hk_lines.specs.Reached.{state_last, state_from};
ghost use Rattle.hk_loop.specs.Causes.{HasSinkCause};
ghost use Rattle.hk_loop.specs.Turned.{Went, led, LeadsOn, StopsWell};

use crate::Command;
use crate::lines::{run_line, run_rest};
use crate::writing::{write_all, write_answer};
use hk_base::{NoMemory, Sink, SinkStop};
use hk_lines::{Cutter, Status};
use std::alloc::Global;

/// How much of a piece was taken, and the status where the command ends.
#[derive(Clone, Copy, Debug)]
pub(crate) struct Part {
    pub(crate) count: usize,
    pub(crate) stop: Option<Status>,
}

/// Runs the lines of a piece and writes what they print. An error is the status where the command ends or what stopped
/// it.
pub(crate) fn run_piece<C: Command, K: Sink>(
    alloc: Global,
    command: &mut C,
    cutter: &mut Cutter,
    number: &mut u64,
    piece: &[u8],
    sink: &mut K,
) -> Result<(), Status>
    requires unfinished { IsUnfinished cutter.old }
    requires fits { number.old + length piece.now < 2 ^ 63 }

    // The command goes on, and what was written is what the piece gives before what comes behind it.
    ensures goes { OnOk result (Went C.turn command.old number.old cutter.old piece.now (K.written sink.old)
        command.new number.new cutter.new (K.written sink.new)) }
    ensures unfinished { OnOk result (IsUnfinished cutter.new) }
    ensures number { OnOk result (number.new ≤ number.old + length piece.now) }

    // The command ended, and what was written is all that is given, whatever comes behind the piece.
    ensures answered { IfErr result (λ status. IsAnswer status → (more : Cut) (close : Close) →
        Gave (given_from C.turn command.old number.old (begun cutter.old (joined (cut piece.now) more)) close) status
        (K.written sink.old) (K.written sink.new)) }

    // After a fault or want of memory what was written is the front of what is given.
    ensures stopped { IfErr result (λ status. ¬ IsAnswer status → (more : Cut) (close : Close) →
        WroteFront
        (given_from C.turn command.old number.old (begun cutter.old (joined (cut piece.now) more)) close).text
        (K.written sink.old) (K.written sink.new)) }
    ensures kept { IfErr result (λ status. status ≡ Status.Done → (more : Cut) →
        C.keeps (state_from C.turn command.old (begun cutter.old (joined (cut piece.now) more))) command.new) }
    ensures not_full { IfErr result (λ status. status ≢ Status.TooLong) }
    ensures no_usage { IfErr result (λ status. status ≢ Status.Usage) }
    ensures count { K.faults sink.old ≤ K.faults sink.new }
    ensures cause { IfErr result (λ status. HasSinkCause status (K.faults sink.old) (K.faults sink.new)) }
{
    let mut out = Vec::new(alloc);
    match feed_piece(alloc, command, cutter, number, piece, &mut out) {
        Err(_) => Err(Status::NoMemory),
        Ok(None) => match write_all(sink, &out) {
            Ok(()) => Ok(()),
            Err(SinkStop::Failed) => Err(Status::WriteFault),
            Err(SinkStop::NoMemory) => Err(Status::NoMemory),
        },
        Ok(Some(status)) => Err(write_answer(sink, &out, status)),
    }
}

/// Runs what is left at the end of the input and writes what it prints. The answer is the status of all, or what
/// stopped it.
pub(crate) fn finish<C: Command, K: Sink>(
    alloc: Global,
    command: &mut C,
    cutter: &Cutter,
    number: u64,
    sink: &mut K,
) -> Status
    requires unfinished { IsUnfinished cutter.now }
    requires fits { number < 2 ^ 63 }
    ensures answered { IsAnswer result →
        Gave (given_from C.turn command.old number (behind cutter.now) ended) result
        (K.written sink.old) (K.written sink.new) }
    ensures stopped { ¬ IsAnswer result →
        WroteFront (given_from C.turn command.old number (behind cutter.now) ended).text
        (K.written sink.old) (K.written sink.new) }
    ensures kept { result ≡ Status.Done → C.keeps (state_last C.turn command.old cutter.now) command.new }
    ensures not_full { result ≢ Status.TooLong }
    ensures no_usage { result ≢ Status.Usage }
    ensures cause { HasSinkCause result (K.faults sink.old) (K.faults sink.new) }
{
    let mut out = Vec::new(alloc);
    match run_rest(alloc, command, number, cutter, &mut out) {
        Ok(status) => write_answer(sink, &out, status),
        Err(_) => Status::NoMemory,
    }
}

/// Runs the lines of a piece and appends what they print. The answer is the status where the command ends.
pub(crate) fn feed_piece<C: Command>(
    alloc: Global,
    command: &mut C,
    cutter: &mut Cutter,
    number: &mut u64,
    piece: &[u8],
    out: &mut Vec<u8>,
) -> Result<Option<Status>, NoMemory>
    requires unfinished { IsUnfinished cutter.old }
    requires fits { number.old + length piece.now < 2 ^ 63 }
    ensures given { IfOk result (λ stop. (more : Cut) (close : Close) →
        after out.old.items
        (given_from C.turn command.old number.old (begun cutter.old (joined (cut piece.now) more)) close)
        ≡ led stop out.new.items (given_from C.turn command.new number.new (begun cutter.new more) close)) }
    ensures reached { IfOk result (λ stop. (more : Cut) →
        LeadsOn C.keeps stop (state_from C.turn command.old (begun cutter.old (joined (cut piece.now) more)))
        (state_from C.turn command.new (begun cutter.new more)) command.new) }
    ensures well { IfOk result (λ stop. StopsWell stop) }
    ensures unfinished { IfOk result (λ stop. stop ≡ None → IsUnfinished cutter.new) }
    ensures number { IfOk result (λ _. number.new ≤ number.old + length piece.now) }
{
    let mut rest = piece;
    while !rest.is_empty() {
        let part = feed_line(alloc, command, cutter, number, rest, out)?;
        match part.stop {
            None => rest = &rest[part.count..],
            Some(status) => return Ok(Some(status)),
        }
    }
    Ok(None)
}

// Takes the front of a piece, up to the first line feed, and runs the line that is whole then.
fn feed_line<C: Command>(
    alloc: Global,
    command: &mut C,
    cutter: &mut Cutter,
    number: &mut u64,
    piece: &[u8],
    out: &mut Vec<u8>,
) -> Result<Part, NoMemory>
    requires some { 0 < length piece.now }
    requires unfinished { IsUnfinished cutter.old }
    requires fits { number.old < 2 ^ 63 }
    ensures given { IfOk result (λ part. (more : Cut) (close : Close) →
        after out.old.items
        (given_from C.turn command.old number.old (begun cutter.old (joined (cut piece.now) more)) close)
        ≡ led part.stop out.new.items
        (given_from C.turn command.new number.new
        (begun cutter.new (joined (cut (drop part.count piece.now)) more)) close)) }
    ensures reached { IfOk result (λ part. (more : Cut) →
        LeadsOn C.keeps part.stop (state_from C.turn command.old (begun cutter.old (joined (cut piece.now) more)))
        (state_from C.turn command.new (begun cutter.new (joined (cut (drop part.count piece.now)) more)))
        command.new) }
    ensures well { IfOk result (λ part. StopsWell part.stop) }
    ensures unfinished { IfOk result (λ part. part.stop ≡ None → IsUnfinished cutter.new) }
    ensures number { IfOk result (λ _. number.new ≤ number.old + 1) }
    ensures some { IfOk result (λ part. 0 < part.count) }
    ensures most { IfOk result (λ part. part.count ≤ length piece.now) }
{
    let count = cutter.feed(piece)?;
    let stop = match cutter.ready() {
        None => return Ok(Part { count, stop: None }),
        Some(line) => run_line(alloc, command, *number, line, out)?,
    };
    cutter.next();
    *number += 1;
    Ok(Part { count, stop })
}
