//! How a run ended.
ghost use Rattle.std.specs.Prelude.{◌+◌, ◌≡◌, ◌≤◌, [], length, vec_capacity};
ghost use Rattle.wa_machine.specs.Machine.{text_of};
ghost use Rattle.wa_run.specs.Running.{IsHeld, outcome_of};

use crate::running::{Message, Stop};
use hk_base::{Items, Outcome};
use wa_num::Memory;

/// How a run ended, and how many turns it took.
#[derive(Debug, Drop)]
pub struct Ended {
    pub outcome: Outcome,
    pub count: u64,
}

/// The outcome that a stop tells of; its text is copied into `text`.
pub(crate) fn outcome(stop: Stop, memory: &Memory, text: Vec<u8>) -> Outcome
    requires held { IsHeld stop memory.now }
    requires empty { text.items ≡ [] }
    requires room { 256 ≤ vec_capacity text }
    ensures outcome { result ≡ outcome_of stop memory.now }
{
    match stop {
        Stop::Accepted(message) => Outcome::Accepted {
            code: message.code,
            text: copied(memory, message, text),
        },
        Stop::RolledBack(message) => Outcome::RolledBack {
            code: message.code,
            text: copied(memory, message, text),
        },
        Stop::Returned(code) => Outcome::Returned { code },
        Stop::Trapped(cause) => Outcome::Trapped(cause),
        Stop::GuardViolated { id, limit } => Outcome::GuardViolated { id, limit },
    }
}

/// The text of a message, at most 256 bytes of it.
fn copied(memory: &Memory, message: Message, text: Vec<u8>) -> Items<u8>
    requires held { message.from + message.size ≤ length memory.now }
    requires empty { text.items ≡ [] }
    requires room { 256 ≤ vec_capacity text }
    ensures text { result ≡ text_of memory.now message.from message.size }
{
    let mut text = text;
    let bytes = match memory.read(message.from, message.size.min(256)) {
        Some(bytes) => bytes,
        None => unreachable!(),
    };
    match text.extend_from_slice(bytes) {
        Ok(()) => Items::from_vec(text),
        Err(_) => unreachable!(),
    }
}
