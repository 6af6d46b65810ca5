//! The commands `json` and `unjson`.
ghost use Rattle.std.specs.Prelude.{◌≡◌, ◌≢◌, List, ℕ, Some};
ghost use Rattle.hk_loop.specs.Answers.{IsAnswer};
ghost use Rattle.hk_loop.specs.Causes.{HasCause};
ghost use Rattle.hk_replay.specs.Moved.{Answered, Stops};

use crate::command::Command;
use crate::limits::LONGEST_INPUT;
use hk_base::{Sink, Source};
use hk_json::{ObjectLines, TextLines};
use hk_lines::Status;
use hk_loop::go_through;
use std::alloc::Global;

/// The command `json`: each object is shown before the next is read.
pub(crate) fn answer_json<S: Source, K: Sink>(alloc: Global, source: &mut S, sink: &mut K) -> Status
    ensures answered { IsAnswer result → (bytes : List ℕ) → S.left source.old ≡ Some bytes →
        Answered Command.Json bytes result (K.written sink.old) (K.written sink.new) }
    ensures no_usage { result ≢ Status.Usage }
    ensures stops { (bytes : List ℕ) → S.left source.old ≡ Some bytes →
        Stops Command.Json bytes result (S.left source.new) (K.written sink.old) (K.written sink.new) }
    ensures cause { HasCause result (S.faults source.old) (S.faults source.new)
        (K.faults sink.old) (K.faults sink.new) }
{
    let mut lines = ObjectLines;
    go_through(alloc, LONGEST_INPUT, &mut lines, source, sink)
}

/// The command `unjson`: the object of each text is printed before the next is read.
pub(crate) fn answer_unjson<S: Source, K: Sink>(
    alloc: Global,
    source: &mut S,
    sink: &mut K,
) -> Status
    ensures answered { IsAnswer result → (bytes : List ℕ) → S.left source.old ≡ Some bytes →
        Answered Command.Unjson bytes result (K.written sink.old) (K.written sink.new) }
    ensures no_usage { result ≢ Status.Usage }
    ensures stops { (bytes : List ℕ) → S.left source.old ≡ Some bytes →
        Stops Command.Unjson bytes result (S.left source.new) (K.written sink.old) (K.written sink.new) }
    ensures cause { HasCause result (S.faults source.old) (S.faults source.new)
        (K.faults sink.old) (K.faults sink.new) }
{
    let mut lines = TextLines;
    go_through(alloc, LONGEST_INPUT, &mut lines, source, sink)
}
