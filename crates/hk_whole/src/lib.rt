//! What holds of whole replays, on the lines that they print. Definitions and their laws; no code of its own.
#![tactic(auto)]

mod laws;

pub use laws::{accounts_for_emissions, bounds_counts, tells_history};
