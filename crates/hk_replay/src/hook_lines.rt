//! The lines of `check` and `run`: one hook, and the end.
ghost use Rattle.std.specs.Prelude.{◌≡◌, List, ℕ, None};
ghost use Rattle.hk_loop.specs.Turned.{Did};
ghost use Rattle.hk_replay.specs.Answers.{code_of};
ghost use Rattle.hk_replay.specs.HookLines.{hook_step};

use crate::words::is_hook_line;
use hk_base::{Items, NoMemory};
use hk_lines::{InputLine, LineFault, Rule, Status, read_if, rule_of};
use hk_loop::{Command, Turned};
use std::alloc::{AllocError, Global};
use std::marker::Model;

/// The hook's code, once its line was taken. Right lines print nothing.
#[derive(Drop)]
pub(crate) struct HookLines {
    code: Option<Items<u8>>,
}

impl Model for HookLines {
    ghost use Rattle.std.specs.Prelude.{ℕ, List, Option};
    ghost use Rattle.std.specs.Coded.{coded_list, coded_ℕ, coded_option};

    ghost Value = { Option (List ℕ) };

    ghost coded = { coded_option (coded_list coded_ℕ) };

    ghost view = { λ lines. lines.code };
}

impl HookLines {
    pub(crate) fn new() -> HookLines
        ensures none { result ≡ None }
    {
        HookLines { code: None }
    }

    /// The hook's code, which has no bytes where no line had one.
    pub(crate) fn code(&self) -> &[u8]
        ensures code { result.now ≡ code_of self.now }
    {
        match &self.code {
            None => b"",
            Some(code) => code.as_slice(),
        }
    }

    // A line that was read.
    fn take(&mut self, line: InputLine) -> Turned
        ensures did { (out : List ℕ) → Did (hook_step self.old line) result self.new out out }
        ensures kept { result ≡ Turned.Ends Status.Done → self.new ≡ self.old }
    {
        match line {
            InputLine::Hook { code } => {
                if self.code.is_some() {
                    return Turned::Wrong(Rule::BadOrder);
                }
                self.code = Some(code);
                Turned::Goes
            }
            InputLine::End => {
                if self.code.is_none() {
                    return Turned::Wrong(Rule::BadOrder);
                }
                Turned::Ends(Status::Done)
            }
            _ => Turned::Wrong(Rule::BadWord),
        }
    }
}

impl Command for HookLines {
    ghost use Rattle.hk_replay.specs.HookLines.{hook_turn};

    ghost turn = { hook_turn };

    ghost keeps = { λ before after. after ≡ before };

    fn line(&mut self, alloc: Global, line: &[u8], _: &mut Vec<u8>) -> Result<Turned, NoMemory> {
        match read_if(alloc, is_hook_line(line), line) {
            Ok(line) => Ok(self.take(line)),
            Err(LineFault::NoMemory) => Err(AllocError),
            Err(fault) => Ok(Turned::Wrong(rule_of(fault))),
        }
    }
}
