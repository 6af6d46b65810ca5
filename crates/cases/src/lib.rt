//! Cases of single calls as lines of text: going through them, making each call, comparing its answer and counting.
#![tactic(auto)]

mod family;
mod words;

pub use family::{Family, run};
pub use words::{CaseFault, Words, hex};
