//! The integer operations of WebAssembly, its linear memory, and what the outside of a run is.
#![tactic(auto)]

mod host;
mod integers;
mod memory;
mod operators;

pub use hk_base::Trap;
pub use host::Host;
pub use integers::{
    binary32, binary64, compare32, compare64, convert, test32, test64, unary32, unary64,
};
pub use memory::Memory;

#[cfg(test)]
mod tests;
