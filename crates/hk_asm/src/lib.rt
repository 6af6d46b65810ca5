//! What `asm` answers to a text.
#![tactic(auto)]

mod answer;
mod laws;
mod rule;

pub use answer::{Answer, answer_text};
pub use laws::{gives_status, shown_late};
