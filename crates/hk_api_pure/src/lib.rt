//! The calls of hooks that need no ledger: rows 3 to 26 of the table of calls.
#![tactic(auto)]

mod amounts;
mod decimals;
mod editing;
mod floats;
mod hashes;
mod laws;
mod objects;
mod table;
mod traces;

pub use laws::pure_keeps_length;
pub use table::pure_call;
