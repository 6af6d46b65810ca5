//! The program.
ghost use Rattle.std.specs.Prelude.{◌≡◌, ◌≢◌, ◌⊎◌, List, ℕ, Some, map, string_bytes};
ghost use Rattle.hk_base.specs.Outside.{Rose};
ghost use Rattle.hk_loop.specs.Answers.{IsAnswer};
ghost use Rattle.hk_loop.specs.Causes.{HasCause};
ghost use Rattle.hk_replay.specs.Answers.{command_of, Gives};
ghost use Rattle.hk_replay.specs.Conserved.{Conserved};
ghost use Rattle.hk_replay.specs.Moved.{Answered, ReadsNothing, Stops, TellsUsage};
ghost use Rattle.hk_replay.specs.Told.{Told};

use crate::asm::answer_asm;
use crate::command::{Command, command_of};
use crate::demo::answer_demo;
use crate::hook::answer_hook;
use crate::json::{answer_json, answer_unjson};
use crate::replay::answer_replay;
use hk_base::{Sink, Source};
use hk_chain::HookHost;
use hk_lines::Status;
use hk_loop::write_answer;
use std::alloc::Global;
use wa_exec::one_ending;

/// The program, by its words, its input and its output.
///
/// `check` reads one `hook` line and `end`, checks the hook's code, and prints its hash and bounds, or why it is
/// refused. `run` runs an accepted code once with argument 0 besides, and prints the line of its ending. `check1` and
/// `run1` do the same in version 1 of the machine. `replay` reads accounts, ledgers and transactions up to `end`, and
/// prints what each of them does, and at the end all accounts. `demo N` makes a replay of N Payments, and prints how
/// many had which result, and the fees that were burnt. `asm` reads a hook as text, and prints the lines with its code
/// that `check` and `run` take. `json` shows objects as JSON texts, a line each, and `unjson` prints the objects that
/// JSON texts show. All other words print the usage line.
pub fn top<S: Source, K: Sink>(
    alloc: Global,
    words: &[String],
    source: &mut S,
    sink: &mut K,
) -> Status
    // An answer and what was written are those that are given for the words and all bytes of the source.
    ensures answered { IsAnswer result → (bytes : List ℕ) → S.left source.old ≡ Some bytes →
        Answered (command_of (map string_bytes words.now)) bytes result (K.written sink.old) (K.written sink.new) }

    // Without a fault it answers what is given, or want of memory.
    ensures exact { ¬ Rose (S.faults source.old) (S.faults source.new) →
        ¬ Rose (K.faults sink.old) (K.faults sink.new) →
        (bytes text : List ℕ) (status : Status) → S.left source.old ≡ Some bytes →
        Gives (map string_bytes words.now) bytes text status → (result ≡ status) ⊎ (result ≡ Status.NoMemory) }

    // No drop comes or goes in a replay that is done: its last two numbers add up to the balances of the input's
    // accounts.
    ensures conserved { result ≡ Status.Done → command_of (map string_bytes words.now) ≡ Command.Replay →
        (bytes : List ℕ) → S.left source.old ≡ Some bytes → Conserved bytes (K.written sink.old) (K.written sink.new) }

    // Of a replay that is done: each count is at most the bound beside it; each emission that was queued is settled
    // once, in time, or waits at the end; and its lines tell of the events of the lines that were taken, from the
    // empty ledger on, each of which is confined, and whole or nothing.
    ensures told { result ≡ Status.Done → command_of (map string_bytes words.now) ≡ Command.Replay →
        (bytes : List ℕ) → S.left source.old ≡ Some bytes →
        Told bytes (K.written sink.old) (K.written sink.new) }

    // Words that are no command get the usage line.
    ensures usage { command_of (map string_bytes words.now) ≡ Command.Other →
        TellsUsage result (K.written sink.old) (K.written sink.new) }
    ensures no_usage { command_of (map string_bytes words.now) ≢ Command.Other → result ≢ Status.Usage }

    // A demo, and words that are no command, take nothing.
    ensures untouched { ReadsNothing (command_of (map string_bytes words.now)) → source.new ≡ source.old }

    // Whatever it answers, no more was written than is due for the bytes that were taken, and no less than was due
    // some bytes before; and those had ended nothing, so it reads no further than a little behind the end.
    ensures stops { (bytes : List ℕ) → S.left source.old ≡ Some bytes →
        Stops (command_of (map string_bytes words.now)) bytes result
        (S.left source.new) (K.written sink.old) (K.written sink.new) }

    // A fault has its cause, and no count falls.
    ensures cause { HasCause result (S.faults source.old) (S.faults source.new)
        (K.faults sink.old) (K.faults sink.new) }
{
    one_ending::<HookHost>();
    let Ok(command) = command_of(alloc, words) else {
        return Status::NoMemory;
    };
    match command {
        Command::Hook(question) => answer_hook(alloc, question, source, sink),
        Command::Replay => answer_replay(alloc, source, sink),
        Command::Asm => answer_asm(alloc, source, sink),
        Command::Json => answer_json(alloc, source, sink),
        Command::Unjson => answer_unjson(alloc, source, sink),
        Command::Demo(payments) => answer_demo(alloc, payments, sink),
        Command::Other => write_answer(
            sink,
            b"usage: hooks check | run | check1 | run1 | replay | demo N | asm | json | unjson\n",
            Status::Usage,
        ),
    }
}
