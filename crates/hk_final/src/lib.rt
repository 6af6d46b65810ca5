//! The lines at the end of a replay: what each account has, what is installed, kept and queued, and the totals.
#![tactic(auto)]

mod counts;
mod laws;
mod lines;

pub use laws::{counts_lines, pays_for_all, plain_lines, queue_told};
pub use lines::final_lines;
