//! Cases of integers and memories: `OPERATION OPERANDS = ANSWER` with the names of WebAssembly's text format, and
//! `memory PAGES STEP STEP .. = ANSWER ANSWER ..`.
#![tactic(auto)]

mod memories;
mod operations;

use cases::{CaseFault, Family, Words};
use std::io;

struct Integers;

impl Family for Integers {
    fn answer(&self, words: &mut Words<'_>) -> Result<String, CaseFault> {
        match words.word()? {
            "memory" => memories::steps(words),
            name => operations::answer(name, words),
        }
    }
}

fn main(rt: HostRuntime) -> io::Result<()> {
    cases::run(&rt, &Integers)
}
