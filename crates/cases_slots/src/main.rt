//! Cases of slots: steps on new slots, `CALL OPERANDS CALL OPERANDS .. = ANSWER ANSWER ..`.
#![tactic(auto)]

use cases::{CaseFault, Family, Words, hex};
use hk_slots::Slots;
use std::io;
use xo_edit::validate;
use xo_fields::FieldId;

struct Steps;

impl Family for Steps {
    fn answer(&self, words: &mut Words<'_>) -> Result<String, CaseFault> {
        let mut slots = Slots::new(words.alloc);
        let mut told = step(&mut slots, words)?;
        for _ in 0..1000 {
            if words.end().is_ok() {
                break;
            }
            let next = step(&mut slots, words)?;
            told.push_str(" ")?;
            told.push_str(&next)?;
        }
        Ok(told)
    }
}

fn step(slots: &mut Slots, words: &mut Words<'_>) -> Result<String, CaseFault> {
    match words.word()? {
        "set" => set(slots, 1, words),
        "sets" => {
            let times = words.value()?;
            set(slots, times, words)
        }
        "subfield" => {
            let slot = words.value()?;
            let (kind, code) = words.field()?;
            let into = words.value()?;
            words.answer(slots.subfield(slot, FieldId { kind, code }, into))
        }
        "subarray" => {
            let slot = words.value()?;
            let index = words.value()?;
            let into = words.value()?;
            words.answer(slots.subarray(slot, index, into))
        }
        "clear" => {
            let slot = words.value()?;
            words.answer(slots.clear(slot).map(|_| 1))
        }
        call => read(call, slots, words),
    }
}

// So many sets of the same, and the answer of the last.
fn set(slots: &mut Slots, times: u32, words: &mut Words<'_>) -> Result<String, CaseFault> {
    let slot = words.value()?;
    let blob = words.bytes()?;
    if !validate(&blob) || blob.len() > u32::MAX as usize {
        return Err(CaseFault::BadCase);
    }
    for _ in 1..times {
        let _ = slots.set(slot, &blob);
    }
    words.answer(slots.set(slot, &blob))
}

fn read(call: &str, slots: &Slots, words: &mut Words<'_>) -> Result<String, CaseFault> {
    let slot = words.value()?;
    match call {
        "take" => match slots.take(slot) {
            Ok(bytes) => hex(words.alloc, bytes),
            Err(fault) => Ok(format!(in words.alloc; "{fault:?}")?),
        },
        "count" => words.answer(slots.count(slot)),
        "size" => words.answer(slots.size(slot)),
        "kind" => match slots.kind(slot) {
            Ok(Some(field)) => Ok(format!(in words.alloc; "{}/{}", field.kind, field.code)?),
            Ok(None) => Ok(format!(in words.alloc; "none")?),
            Err(fault) => Ok(format!(in words.alloc; "{fault:?}")?),
        },
        _ => Err(CaseFault::BadCase),
    }
}

fn main(rt: HostRuntime) -> io::Result<()> {
    cases::run(&rt, &Steps)
}
