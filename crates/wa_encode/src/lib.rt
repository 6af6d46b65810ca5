//! The encoder of WebAssembly modules: of the spellings of a module the shortest, by the binary format of Core 1.0.
#![tactic(auto)]

mod encoding;
mod instructions;
mod laws;
mod numbers;
mod parts;
mod types;
mod vectors;

pub use encoding::encode;
pub use laws::{encoded_spells, signed_shortest, unsigned_shortest};
