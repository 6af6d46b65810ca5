//! A command goes through its input, piece by piece and line by line.
#![tactic(auto)]

mod command;
mod gathering;
mod going;
mod lines;
mod pieces;
#[cfg(test)]
mod tests;
mod through;
mod writing;

pub use command::Command;
pub use gathering::gather;
pub use hk_lines::Turned;
pub use through::go_through;
pub use writing::{write_all, write_answer};
