//! A command goes through its whole input.
ghost use Rattle.std.specs.Prelude.{◌≡◌, ◌≢◌, ◌<◌, ◌^◌, List, ℕ};
ghost use Rattle.hk_base.specs.Outside.{Rose};
ghost use Rattle.hk_lines.specs.Given.{gives};
ghost use Rattle.hk_loop.specs.Answers.{IsAnswer, Gave};
ghost use Rattle.hk_lines.specs.Reached.{reached};
ghost use Rattle.hk_loop.specs.Causes.{HasCause};
ghost use Rattle.hk_loop.specs.Through.{IsExact, Leaves};

use crate::Command;
use crate::going::read_piece;
use crate::writing::write_answer;
use hk_base::{Sink, Source};
use hk_lines::{Cutter, Status, too_long_line};
use std::alloc::Global;

/// Takes the source's bytes, up to the limit, until the command ends, and writes what their lines print before it
/// reads on.
pub fn go_through<C: Command, S: Source, K: Sink>(
    alloc: Global,
    limit: usize,
    command: &mut C,
    source: &mut S,
    sink: &mut K,
) -> Status
    requires limit { limit < 2 ^ 60 }

    // An answer and what was written are those that are given for all bytes of the source.
    ensures answered { IsAnswer result → (bytes : List ℕ) → S.left source.old ≡ Some bytes →
        Gave (gives C.turn limit command.old bytes) result (K.written sink.old) (K.written sink.new) }

    // Where no call failed, it answers that, or there was want of memory.
    ensures exact { ¬ Rose (S.faults source.old) (S.faults source.new) →
        ¬ Rose (K.faults sink.old) (K.faults sink.new) →
        (bytes : List ℕ) → S.left source.old ≡ Some bytes → IsExact C.turn limit command.old bytes result }

    // Where the command is done, it keeps what it says of the state that the lines lead to.
    ensures kept { result ≡ Status.Done → (bytes : List ℕ) → S.left source.old ≡ Some bytes →
        C.keeps (reached C.turn limit command.old bytes) command.new }

    // Whatever it answers, no more was written than is due for the bytes taken, and no less than was due one piece
    // before.
    ensures leaves { (bytes : List ℕ) → S.left source.old ≡ Some bytes →
        Leaves C.turn C.keeps limit command.old bytes result command.new
        (S.left source.new) (K.written sink.old) (K.written sink.new) }
    ensures no_usage { result ≢ Status.Usage }
    ensures cause { HasCause result (S.faults source.old) (S.faults source.new)
        (K.faults sink.old) (K.faults sink.new) }
{
    let mut cutter = Cutter::new(alloc);
    let mut number = 1;
    let mut room = limit;
    while room > 0 {
        match read_piece(alloc, room, command, &mut cutter, &mut number, source, sink) {
            Ok(count) => room -= count,
            Err(status) => return status,
        }
    }
    write_answer(sink, too_long_line(), Status::TooLong)
}
