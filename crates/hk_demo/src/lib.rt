//! The replay of the command `demo`, and what is told of it.
#![tactic(auto)]

mod blobs;
mod codes;
mod demo_lines;
mod play;
mod summary;
mod whole;

pub use summary::{Summary, summary_line};
pub use whole::demo;
