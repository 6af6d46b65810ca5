//! The lines of `replay`.
ghost use Rattle.std.specs.Prelude.{◌≡◌, ◌++◌, ◌⊎◌, Err, IfOk, OnOk};
ghost use Rattle.hk_ledger.specs.Machine.{start, step, IsInRange};
ghost use Rattle.hk_state.specs.Native.{native};
ghost use Rattle.hk_loop.specs.Turned.{Did};
ghost use Rattle.hk_replay.specs.Replaying.{texts, printed};
ghost use Rattle.hk_lines.specs.Taken.{read_if};

use crate::words::is_replay_line;
use hk_base::NoMemory;
use hk_ledger::{Replay, Stepped};
use hk_lines::{
    InputLine, LineFault, OutputLine, Status, print_line, read_if, reads_spelled, rule_of,
};
use hk_loop::{Command, Turned};
use hk_state::Native;
use std::alloc::{AllocError, Global};
use std::marker::Model;

/// A replay under the rules for native payments.
#[derive(Drop)]
pub(crate) struct Replaying {
    replay: Replay,
}

impl Model for Replaying {
    ghost use Rattle.hk_ledger.specs.Machine.{State, coded_state};

    ghost Value = { State };

    ghost coded = { coded_state };

    ghost view = { λ r. r.replay };
}

impl Replaying {
    pub(crate) fn new(alloc: Global) -> Replaying
        ensures start { result ≡ start }
    {
        Replaying {
            replay: Replay::new(alloc),
        }
    }

    // A line that was read.
    fn take(
        &mut self,
        alloc: Global,
        line: &InputLine,
        out: &mut Vec<u8>,
    ) -> Result<Turned, NoMemory>
        requires range { IsInRange line.now }
        ensures did { IfOk result (λ turned.
            Did (printed (step native self.old line.now)) turned self.new out.old.items out.new.items) }
    {
        match self.replay.line(alloc, &Native, line)? {
            Stepped::Goes(lines) => {
                print_lines(lines.as_slice(), out)?;
                Ok(Turned::Goes)
            }
            Stepped::Ends(lines) => {
                print_lines(lines.as_slice(), out)?;
                Ok(Turned::Ends(Status::Done))
            }
            Stepped::Breaks(rule) => Ok(Turned::Wrong(rule)),
        }
    }
}

impl Command for Replaying {
    ghost use Rattle.hk_replay.specs.Replaying.{replay_turn};

    ghost turn = { replay_turn };

    fn line(&mut self, alloc: Global, line: &[u8], out: &mut Vec<u8>) -> Result<Turned, NoMemory> {
        match read_in_range(alloc, is_replay_line(line), line) {
            Ok(line) => self.take(alloc, &line, out),
            Err(LineFault::NoMemory) => Err(AllocError),
            Err(fault) => Ok(Turned::Wrong(rule_of(fault))),
        }
    }
}

// Reads a line, where the command takes its first word.
fn read_in_range(alloc: Global, taken: bool, line: &[u8]) -> Result<InputLine, LineFault>
    ensures read { (result ≡ read_if taken line.now) ⊎ (result ≡ Err LineFault.NoMemory) }
    ensures range { IfOk result (λ found. IsInRange found) }
{
    reads_spelled();
    read_if(alloc, taken, line)
}

// Prints the lines' texts.
fn print_lines(lines: &[OutputLine], out: &mut Vec<u8>) -> Result<(), NoMemory>
    ensures printed { OnOk result (out.new.items ≡ out.old.items ++ texts lines.now) }
{
    for line in lines {
        print_line(out, line)?;
    }
    Ok(())
}
