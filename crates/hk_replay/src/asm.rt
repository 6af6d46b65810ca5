//! The command `asm`.
ghost use Rattle.std.specs.Prelude.{◌≡◌, ◌≢◌, ◌≤◌, List, ℕ, Some, length};
ghost use Rattle.hk_asm.specs.Assembling.{asm_given};
ghost use Rattle.hk_lines.specs.Given.{ended};
ghost use Rattle.hk_loop.specs.Answers.{IsAnswer, Gave, WroteFront};
ghost use Rattle.hk_loop.specs.Causes.{HasCause, HasSinkCause};
ghost use Rattle.hk_replay.specs.Moved.{Answered, Stops};

use crate::command::Command;
use crate::limits::LONGEST_TEXT;
use hk_asm::answer_text;
use hk_base::{Sink, Source};
use hk_lines::Status;
use hk_loop::{gather, write_answer};
use std::alloc::Global;

/// The command `asm`. It takes the whole text before it writes.
pub(crate) fn answer_asm<S: Source, K: Sink>(alloc: Global, source: &mut S, sink: &mut K) -> Status
    ensures answered { IsAnswer result → (bytes : List ℕ) → S.left source.old ≡ Some bytes →
        Answered Command.Asm bytes result (K.written sink.old) (K.written sink.new) }
    ensures no_usage { result ≢ Status.Usage }
    ensures stops { (bytes : List ℕ) → S.left source.old ≡ Some bytes →
        Stops Command.Asm bytes result (S.left source.new) (K.written sink.old) (K.written sink.new) }
    ensures cause { HasCause result (S.faults source.old) (S.faults source.new)
        (K.faults sink.old) (K.faults sink.new) }
{
    match gather(alloc, LONGEST_TEXT, source) {
        Ok(text) => answer_whole(alloc, text.as_slice(), sink),
        Err(status) => status,
    }
}

// Writes what a text is answered.
fn answer_whole<K: Sink>(alloc: Global, text: &[u8], sink: &mut K) -> Status
    requires size { length text.now ≤ 1048576 }
    ensures gave { IsAnswer result →
        Gave (asm_given text.now ended) result (K.written sink.old) (K.written sink.new) }
    ensures front { ¬ IsAnswer result →
        WroteFront (asm_given text.now ended).text (K.written sink.old) (K.written sink.new) }
    ensures no_usage { result ≢ Status.Usage }
    ensures cause { HasSinkCause result (K.faults sink.old) (K.faults sink.new) }
{
    match answer_text(alloc, text) {
        Ok(answer) => write_answer(sink, answer.text.as_slice(), answer.status),
        Err(_) => Status::NoMemory,
    }
}
