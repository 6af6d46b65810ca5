//! Cases of fields, objects, transactions and edits in the ledger's binary format: `CALL OPERANDS = ANSWER`.
#![tactic(auto)]

mod edits;
mod fields;
mod lists;
mod transactions;

use cases::{CaseFault, Family, Words};
use std::io;
use xo_fields::FieldId;

struct Objects;

impl Family for Objects {
    fn answer(&self, words: &mut Words<'_>) -> Result<String, CaseFault> {
        let call = words.word()?;
        match call {
            "header" | "length" | "amount" => fields::read(call, words),
            "header_again" | "length_again" | "amount_again" => fields::read_and_written(
                call, words,
            ),
            "number" | "from_number" | "named" => fields::named(call, words),
            "check" | "object" | "elements" | "build" => lists::read(call, words),
            "find" | "locate" => lists::found(call, words),
            "element" | "skip" | "count" => lists::passed(call, words),
            "sent" | "emitted" | "items" | "reading" => transactions::read(call, words),
            "emplace" | "erase" => edits::edited(call, words),
            "subfield" | "subarray" | "validate" => edits::part(call, words),
            _ => Err(CaseFault::BadCase),
        }
    }
}

// The field of a word, as 2/4.
fn field(words: &mut Words<'_>) -> Result<FieldId, CaseFault> {
    let (kind, code) = words.field()?;
    Ok(FieldId { kind, code })
}

fn main(rt: HostRuntime) -> io::Result<()> {
    cases::run(&rt, &Objects)
}
