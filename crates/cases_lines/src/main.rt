//! Cases of lines: what a line reads as, how one is printed, and how bytes are cut into lines.
#![tactic(auto)]

mod cutting;
mod names;
mod printing;
mod reading;

use cases::{CaseFault, Family, Words};
use std::io;

struct Lines;

impl Family for Lines {
    fn answer(&self, words: &mut Words<'_>) -> Result<String, CaseFault> {
        match words.word()? {
            "read" => {
                let line = words.word()?;
                reading::told(words.alloc, line.as_bytes())
            }
            "read_bytes" => {
                let line = words.bytes()?;
                reading::told(words.alloc, &line)
            }
            "print" => printing::printed(words),
            "final" => printing::printed_at_the_end(words),
            "result" => Ok(format!(in words.alloc; "{:?}", names::result(words)?)?),
            "rule" => Ok(format!(in words.alloc; "{:?}", names::rule(words)?)?),
            "cut" => cutting::cut(words),
            _ => Err(CaseFault::BadCase),
        }
    }
}

fn main(rt: HostRuntime) -> io::Result<()> {
    cases::run(&rt, &Lines)
}
