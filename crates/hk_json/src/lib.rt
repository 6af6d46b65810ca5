//! The lines of `json` and `unjson`: objects, and the JSON texts that show them.
#![tactic(auto)]

mod closing;
mod object_lines;
mod text_lines;

pub use object_lines::ObjectLines;
pub use text_lines::TextLines;
