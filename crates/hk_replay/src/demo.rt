//! The command `demo`.
ghost use Rattle.std.specs.Prelude.{◌≡◌, ◌≢◌, ◌≤◌, List, ℕ, IfOk, Some, string_bytes};
ghost use Rattle.hk_demo.specs.Summary.{demo_line};
ghost use Rattle.hk_loop.specs.Answers.{IsAnswer};
ghost use Rattle.hk_loop.specs.Causes.{HasSinkCause};
ghost use Rattle.hk_replay.specs.Moved.{Answered, Stops};

use crate::command::Command;
use hk_base::{NoMemory, Sink};
use hk_demo::{demo, summary_line};
use hk_lines::Status;
use hk_loop::write_answer;
use std::alloc::Global;

/// The command `demo`: a replay of so many Payments, whose summary alone is written. It reads nothing.
pub(crate) fn answer_demo<K: Sink>(alloc: Global, payments: u32, sink: &mut K) -> Status
    requires few { payments ≤ 100000 }
    ensures answered { IsAnswer result → (bytes : List ℕ) →
        Answered (Command.Demo payments) bytes result (K.written sink.old) (K.written sink.new) }
    ensures no_usage { result ≢ Status.Usage }
    ensures stops { (bytes : List ℕ) →
        Stops (Command.Demo payments) bytes result (Some bytes) (K.written sink.old) (K.written sink.new) }
    ensures cause { HasSinkCause result (K.faults sink.old) (K.faults sink.new) }
{
    match told(alloc, payments) {
        Ok(line) => write_answer(sink, line.as_bytes(), Status::Done),
        Err(_) => Status::NoMemory,
    }
}

// The line of a demo.
fn told(alloc: Global, payments: u32) -> Result<String, NoMemory>
    requires few { payments ≤ 100000 }
    ensures line { IfOk result (λ line. string_bytes line ≡ demo_line payments) }
{
    let summary = demo(alloc, payments)?;
    summary_line(alloc, payments, &summary)
}
