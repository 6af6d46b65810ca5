//! The command `replay`.
ghost use Rattle.std.specs.Prelude.{◌≡◌, ◌≢◌, List, ℕ, Some};
ghost use Rattle.hk_loop.specs.Answers.{IsAnswer};
ghost use Rattle.hk_loop.specs.Causes.{HasCause};
ghost use Rattle.hk_replay.specs.Conserved.{Conserved};
ghost use Rattle.hk_replay.specs.Moved.{Answered, Stops};
ghost use Rattle.hk_replay.specs.Told.{Told};

use crate::command::Command;
use crate::limits::LONGEST_INPUT;
use crate::replaying::Replaying;
use hk_base::{Sink, Source};
use hk_ledger::conserves;
use hk_lines::Status;
use hk_loop::go_through;
use hk_state::Native;
use hk_whole::{accounts_for_emissions, bounds_counts, tells_history};
use std::alloc::Global;

/// The command `replay`: its lines are a replay, and each is answered before the next is read.
pub(crate) fn answer_replay<S: Source, K: Sink>(
    alloc: Global,
    source: &mut S,
    sink: &mut K,
) -> Status
    ensures answered { IsAnswer result → (bytes : List ℕ) → S.left source.old ≡ Some bytes →
        Answered Command.Replay bytes result (K.written sink.old) (K.written sink.new) }
    ensures conserved { result ≡ Status.Done → (bytes : List ℕ) → S.left source.old ≡ Some bytes →
        Conserved bytes (K.written sink.old) (K.written sink.new) }
    ensures told { result ≡ Status.Done → (bytes : List ℕ) → S.left source.old ≡ Some bytes →
        Told bytes (K.written sink.old) (K.written sink.new) }
    ensures no_usage { result ≢ Status.Usage }
    ensures stops { (bytes : List ℕ) → S.left source.old ≡ Some bytes →
        Stops Command.Replay bytes result (S.left source.new) (K.written sink.old) (K.written sink.new) }
    ensures cause { HasCause result (S.faults source.old) (S.faults source.new)
        (K.faults sink.old) (K.faults sink.new) }
{
    conserves::<Native>();
    bounds_counts::<Native>();
    accounts_for_emissions::<Native>();
    tells_history::<Native>();
    let mut replaying = Replaying::new(alloc);
    go_through(alloc, LONGEST_INPUT, &mut replaying, source, sink)
}
