//! The rules that make a module a hook, and the guards of its loops.
#![tactic(auto)]

mod codes;
mod exports;
mod finding;
mod floats;
mod guards;
mod imports;
mod judging;
mod laws;
mod loops;
mod operations;
mod sections;
mod segments;
mod sparing;

pub use guards::{FunctionGuards, Guards, LoopGuard};
pub use judging::rules;
pub use laws::rules_decided;
pub use wa_ops::RuleFault;
