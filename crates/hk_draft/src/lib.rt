//! What an event has written so far, and what hooks may add to it. Definitions and their laws; no code of its own.
#![tactic(auto)]

mod laws;

pub use laws::{emits, extending, granting, writing};
