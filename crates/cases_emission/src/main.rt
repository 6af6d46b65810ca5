//! Cases of emissions: `CALL OPERANDS = ANSWER`.
#![tactic(auto)]

use cases::{CaseFault, Family, Words, hex};
use hk_base::{AccountId, Hash256, Items};
use hk_emit::{Emission, EmitContext, accept_emission, burden, details, nonce};
use std::alloc::Global;
use std::io;

struct Emissions;

impl Family for Emissions {
    fn answer(&self, words: &mut Words<'_>) -> Result<String, CaseFault> {
        match words.word()? {
            "nonce" => {
                let parent = words.hash()?;
                let account = words.account()?;
                let position = words.value()?;
                let callback = words.value()?;
                let counter = words.value()?;
                let drawn = nonce(&parent, &account, position, callback, counter);
                hex(words.alloc, &drawn.0)
            }
            "burden" => {
                let parent = words.value()?;
                let reserved = words.value()?;
                match burden(parent, reserved) {
                    Some(product) => Ok(format!(in words.alloc; "{product}")?),
                    None => Ok(format!(in words.alloc; "none")?),
                }
            }
            "details" => told_details(words),
            "emit" => emitted(words),
            _ => Err(CaseFault::BadCase),
        }
    }
}

fn told_details(words: &mut Words<'_>) -> Result<String, CaseFault> {
    let with_callback = words.value()?;
    let generation = words.value()?;
    let burden = words.value()?;
    let nonce = words.hash()?;
    let (bytes, size) = details(&context(with_callback, 0, generation, burden), &nonce);
    let text = hex(words.alloc, bytes.get(..size).ok_or(CaseFault::BadCase)?)?;
    Ok(format!(in words.alloc; "{size} {text}")?)
}

fn emitted(words: &mut Words<'_>) -> Result<String, CaseFault> {
    let with_callback = words.value()?;
    let seq = words.value()?;
    let generation = words.value()?;
    let burden = words.value()?;
    let count: u32 = words.value()?;
    let mut nonces = Items::new(words.alloc);
    for _ in 0..count {
        nonces.push(words.hash()?)?;
    }
    let blob = words.bytes()?;
    let context = context(with_callback, seq, generation, burden);
    match accept_emission(words.alloc, &blob, &context, nonces.as_slice()) {
        Ok(emission) => told(words.alloc, &emission),
        Err(fault) => Ok(format!(in words.alloc; "{fault:?}")?),
    }
}

// The hook of account 11.., hash 22.., on transaction 33..
fn context(with_callback: bool, seq: u32, generation: u32, burden: u64) -> EmitContext {
    EmitContext {
        account: AccountId([0x11; 20]),
        hash: Hash256([0x22; 32]),
        parent: Hash256([0x33; 32]),
        with_callback,
        seq,
        generation,
        burden,
    }
}

// An emission in short: nonce and callback by their first bytes.
fn told(alloc: Global, emission: &Emission) -> Result<String, CaseFault> {
    let callback = match &emission.callback {
        Some(account) => hex(alloc, &account.0[..1])?,
        None => String::from_str(alloc, "none")?,
    };
    let transaction = &emission.transaction;
    Ok(format!(in alloc;
        "kind {} fee {} first {} last {} nonce {:02x} callback {callback} generation {} burden {}",
        transaction.kind,
        transaction.fee,
        emission.first,
        emission.last,
        emission.nonce.0[0],
        transaction.generation,
        transaction.burden
    )?)
}

fn main(rt: HostRuntime) -> io::Result<()> {
    cases::run(&rt, &Emissions)
}
