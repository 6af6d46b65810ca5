//! The commands `check`, `run`, `check1` and `run1`.
ghost use Rattle.std.specs.Prelude.{◌≡◌, ◌≢◌, List, ℕ, Some};
ghost use Rattle.hk_loop.specs.Answers.{IsAnswer};
ghost use Rattle.hk_loop.specs.Causes.{HasCause, HasSinkCause};
ghost use Rattle.hk_replay.specs.Moved.{Answered, Stops, Tells};

use crate::command::{Command, Question};
use crate::hook_lines::HookLines;
use crate::limits::LONGEST_INPUT;
use crate::reply::reply_to;
use hk_base::{Sink, Source};
use hk_lines::Status;
use hk_loop::{go_through, write_answer};
use std::alloc::Global;

/// The commands `check`, `run`, `check1` and `run1`. Right lines print nothing, and then their code is answered.
pub(crate) fn answer_hook<S: Source, K: Sink>(
    alloc: Global,
    question: Question,
    source: &mut S,
    sink: &mut K,
) -> Status
    ensures answered { IsAnswer result → (bytes : List ℕ) → S.left source.old ≡ Some bytes →
        Answered (Command.Hook question) bytes result (K.written sink.old) (K.written sink.new) }
    ensures no_usage { result ≢ Status.Usage }
    ensures stops { (bytes : List ℕ) → S.left source.old ≡ Some bytes →
        Stops (Command.Hook question) bytes result (S.left source.new) (K.written sink.old) (K.written sink.new) }
    ensures cause { HasCause result (S.faults source.old) (S.faults source.new)
        (K.faults sink.old) (K.faults sink.new) }
{
    let mut lines = HookLines::new();
    match go_through(alloc, LONGEST_INPUT, &mut lines, source, sink) {
        Status::Done => answer_code(alloc, question, lines.code(), sink),
        status => status,
    }
}

// Writes what a code is answered.
fn answer_code<K: Sink>(alloc: Global, question: Question, code: &[u8], sink: &mut K) -> Status
    ensures told { Tells question code.now result (K.written sink.old) (K.written sink.new) }
    ensures no_usage { result ≢ Status.Usage }
    ensures cause { HasSinkCause result (K.faults sink.old) (K.faults sink.new) }
{
    match reply_to(alloc, question, code) {
        Ok(reply) => write_answer(sink, reply.text.as_slice(), reply.status),
        Err(_) => Status::NoMemory,
    }
}
