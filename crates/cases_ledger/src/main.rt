//! Cases of the ledger machine: replays under the program's rules and under others, and calls on a world.
#![tactic(auto)]

mod failing;
mod replays;
mod worlds;

use crate::failing::Failing;
use cases::{CaseFault, Family, Words};
use hk_state::Native;
use std::io;

struct Ledgers;

impl Family for Ledgers {
    fn answer(&self, words: &mut Words<'_>) -> Result<String, CaseFault> {
        match words.word()? {
            "replay" => replays::told(words, &Native),
            "failing" => replays::told(words, &Failing),
            "world" => worlds::told(words),
            _ => Err(CaseFault::BadCase),
        }
    }
}

fn main(rt: HostRuntime) -> io::Result<()> {
    cases::run(&rt, &Ledgers)
}
