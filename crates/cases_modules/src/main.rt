//! Cases of modules: `is BYTES`, `module BYTES`, `ops BYTES` and `count BYTES`, each with its answer or the fault.
#![tactic(auto)]

use cases::{CaseFault, Family, Words};
use std::io;
use wa_decode::decode;
use wa_ops::Module;

struct Modules;

impl Family for Modules {
    fn answer(&self, words: &mut Words<'_>) -> Result<String, CaseFault> {
        let asked = words.word()?;
        let bytes = words.bytes()?;
        match decode(words.alloc, &bytes) {
            Ok(module) => told(asked, words, &module),
            Err(fault) => Ok(format!(in words.alloc; "{fault:?}")?),
        }
    }
}

// What is asked of a module: nothing more, all of it, the instructions of its only body, or how many these are.
fn told(asked: &str, words: &Words<'_>, module: &Module) -> Result<String, CaseFault> {
    match (asked, module.codes.as_slice()) {
        ("is", _) => Ok(format!(in words.alloc; "module")?),
        ("module", _) => Ok(format!(in words.alloc; "{module:?}")?),
        ("ops", [code]) => Ok(format!(in words.alloc; "{:?}", code.ops.as_slice())?),
        ("count", [code]) => Ok(format!(in words.alloc; "{}", code.ops.len())?),
        _ => Err(CaseFault::BadCase),
    }
}

fn main(rt: HostRuntime) -> io::Result<()> {
    cases::run(&rt, &Modules)
}
