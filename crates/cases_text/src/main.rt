//! Cases of the assembler: `asm TEXT`, `bytes BYTES`, `ops TEXT` and `count BYTES`, each with its answer or the fault.
#![tactic(auto)]

use cases::{CaseFault, Family, Words, hex};
use std::alloc::Global;
use std::io;
use wa_decode::decode;
use wa_ops::Module;
use wa_text::assemble;

struct Texts;

impl Family for Texts {
    fn answer(&self, words: &mut Words<'_>) -> Result<String, CaseFault> {
        let asked = words.word()?;
        let text = match asked {
            "asm" | "ops" => lines(words.alloc, words.word()?)?,
            _ => words.bytes()?,
        };
        if text.len() > 1_048_576 {
            return Err(CaseFault::BadCase);
        }
        match assemble(words.alloc, &text) {
            Ok(code) => told(words.alloc, asked, &code),
            Err(fault) => Ok(format!(in words.alloc; "{fault:?}")?),
        }
    }
}

// A text in which a semicolon stands for each line feed.
fn lines(alloc: Global, word: &str) -> Result<Vec<u8>, CaseFault> {
    let mut text = Vec::new(alloc);
    for byte in word.as_bytes() {
        text.extend_from_slice(&[if *byte == b';' { b'\n' } else { *byte }])?;
    }
    Ok(text)
}

// What is asked of the bytes: these, or of the module that they decode to the instructions of its first body, or how
// many these are.
fn told(alloc: Global, asked: &str, code: &[u8]) -> Result<String, CaseFault> {
    match asked {
        "asm" | "bytes" => hex(alloc, code),
        "ops" => Ok(format!(in alloc; "{:?}", module(alloc, code)?.codes.as_slice().first())?),
        "count" => counted(alloc, &module(alloc, code)?),
        _ => Err(CaseFault::BadCase),
    }
}

fn module(alloc: Global, code: &[u8]) -> Result<Module, CaseFault> {
    decode(alloc, code).or(Err(CaseFault::BadCase))
}

fn counted(alloc: Global, module: &Module) -> Result<String, CaseFault> {
    match module.codes.as_slice() {
        [body, ..] => Ok(format!(in alloc; "{}", body.ops.len())?),
        [] => Err(CaseFault::BadCase),
    }
}

fn main(rt: HostRuntime) -> io::Result<()> {
    cases::run(&rt, &Texts)
}
