//! The program `hooks`: guarded WebAssembly hooks, by standard input and output.
#![tactic(auto)]

use hk_base::{StdSink, StdSource};
use hk_replay::{Status, exit_status, top};
use std::env::Env;
use std::io::ErrorKind;
use std::process::ExitCode;
use std::{env, io};

/// The exit status where the words can't be had for another reason than want of memory.
const NO_WORDS: u8 = 9;

fn main(rt: HostRuntime) -> ExitCode {
    match words(&rt) {
        Ok(words) => {
            let mut source = StdSource::new(rt.reader());
            let mut sink = StdSink::new(io::writer(&rt));
            let status = top(rt.alloc(), words.as_slice(), &mut source, &mut sink);
            ExitCode::from(exit_status(status))
        }
        Err(error) => match error.kind() {
            ErrorKind::OutOfMemory => ExitCode::from(exit_status(Status::NoMemory)),
            _ => ExitCode::from(NO_WORDS),
        },
    }
}

// The words after the program's name.
fn words(rt: &(impl Env + AllocGlobal)) -> io::Result<Vec<String>> {
    Ok(env::args(rt)?.skip(1).collect(rt.alloc())?)
}
