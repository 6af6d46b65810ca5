//! Cases of hooks in each version of the machine: `VERSION BYTES = HASH BOUND BOUND OUTCOME COUNT`, the hash, the
//! bounds of `hook` and `cbak`, and how a run of `hook` ends; or why the code is refused.
#![tactic(auto)]

use cases::{CaseFault, Family, Words, hex};
use hk_alone::run_alone;
use hk_bound::{Checked, check_at};
use std::alloc::Global;
use std::io;

struct Hooks;

impl Family for Hooks {
    fn answer(&self, words: &mut Words<'_>) -> Result<String, CaseFault> {
        let version: u16 = words.value()?;
        let code = words.bytes()?;
        if version > 1 {
            return Err(CaseFault::BadCase);
        }
        match check_at(words.alloc, &code, version) {
            Ok(checked) => told(words.alloc, &checked, &code),
            Err(fault) => Ok(format!(in words.alloc; "{fault:?}")?),
        }
    }
}

fn told(alloc: Global, checked: &Checked, code: &[u8]) -> Result<String, CaseFault> {
    let ended = run_alone(alloc, checked, code)?;
    let hash = hex(alloc, &checked.hash().0)?;
    let (hook, cbak) = (checked.bound_hook(), checked.bound_cbak());
    let (outcome, count) = (ended.outcome, ended.count);
    Ok(format!(in alloc; "{hash} {hook} {cbak:?} {outcome:?} {count}")?)
}

fn main(rt: HostRuntime) -> io::Result<()> {
    cases::run(&rt, &Hooks)
}
