//! The program's top call.
#![tactic(auto)]

mod asm;
mod command;
mod demo;
mod hook;
mod hook_lines;
mod json;
mod laws;
mod limits;
mod program;
mod replay;
mod replaying;
mod reply;
mod status;
#[cfg(test)]
mod tests;
mod verdict;
mod words;

pub use hk_lines::Status;
pub use laws::{
    each_verdict, held_verdict, hook_folds, one_answer, printed_counts, replay_folds, some_answer,
};
pub use program::top;
pub use status::exit_status;
