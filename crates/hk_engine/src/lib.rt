//! The engine of the program: the chains, callbacks, checks and fees that the events of its ledgers rest on, and what
//! they keep. Definitions and their laws; no code of its own.
#![tactic(auto)]

mod laws;

pub use laws::{calls_keep, engines_careful, engines_lawful, engines_measured, stores_bounds};
