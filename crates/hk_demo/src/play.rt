//! A replay, and what is told of it.
ghost use Rattle.std.specs.Prelude.{◌≡◌, OnOk};
ghost use Rattle.hk_demo.specs.Summary.{begun, play};
ghost use Rattle.hk_ledger.specs.Machine.{IsInRange};

use crate::summary::{Summary, none, told_all};
use hk_base::NoMemory;
use hk_ledger::{Replay, Stepped};
use hk_lines::InputLine;
use hk_state::Native;
use std::alloc::Global;
use std::marker::Model;

/// A replay under the rules for native payments, and what its printed lines told.
#[derive(Drop)]
pub(crate) struct Play {
    replay: Replay,
    told: Summary,
    is_over: bool,
}

impl Model for Play {
    ghost use Rattle.std.specs.Prelude.{if◌then◌else◌, Some, None};
    ghost use Rattle.hk_demo.specs.Summary.{Played, coded_played};

    ghost Value = { Played };

    ghost coded = { coded_played };

    ghost view = { λ p. record { machine = if p.is_over then None else Some p.replay; told = p.told } };
}

impl Play {
    pub(crate) fn new(alloc: Global) -> Play
        ensures begun { result ≡ begun }
    {
        Play {
            replay: Replay::new(alloc),
            told: none(),
            is_over: false,
        }
    }

    /// A line of the input. After want of memory nothing is known of the replay.
    pub(crate) fn line(&mut self, alloc: Global, line: &InputLine) -> Result<(), NoMemory>
        requires range { IsInRange line.now }
        ensures ok { OnOk result (self.new ≡ play self.old line.now) }
    {
        if self.is_over {
            return Ok(());
        }
        match self.replay.line(alloc, &Native, line)? {
            Stepped::Goes(lines) => {
                self.told = told_all(self.told, lines.as_slice())?;
                Ok(())
            }
            Stepped::Ends(lines) => {
                self.told = told_all(self.told, lines.as_slice())?;
                self.is_over = true;
                Ok(())
            }
            Stepped::Breaks(_) => {
                self.is_over = true;
                Ok(())
            }
        }
    }

    pub(crate) fn summary(&self) -> Summary
        ensures told { result ≡ self.now.told }
    {
        self.told
    }
}
