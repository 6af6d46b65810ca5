//! The decoder of WebAssembly modules: the module that bytes spell, by the binary format of Core 1.0.
#![tactic(auto)]

mod codes;
mod decoding;
mod extensions;
mod fault;
mod instructions;
mod numbers;
mod parts;
mod sections;
mod types;
mod vectors;

pub use decoding::{decode, module_reads, number_lengths, one_module};
pub use extensions::has_extensions;
pub use fault::DecodeFault;
