//! The fields that a JSON text shows, as a function of the text.
#![tactic(auto)]

mod fault;
mod laws;

pub use fault::JsonFault;
pub use laws::{told_refuses, told_shows, worked_texts};
