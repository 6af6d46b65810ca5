//! The interpreter of flat code: a run of one function of a hook, which is the machine's and ends within its bound.
#![tactic(auto)]

mod calls;
mod counter;
mod ended;
mod first_values;
mod guards;
mod instance;
mod instructions;
mod label;
mod labels;
mod memory_access;
mod numbers;
mod running;
mod runs;
mod store;
mod turns;
mod words;

pub use ended::Ended;
pub use instance::Instance;
