//! Decimals of sixteen digits, as the ledger's hooks and issued amounts have them. Each operation is the
//! exact result, cut toward zero. No call takes memory.
#![tactic(auto)]

mod arithmetic;
mod fault;
mod laws;
mod rounding;
mod value;

pub use arithmetic::{divide, from_drops, invert, mulratio, multiply, set, sum, to_int};
pub use fault::XflFault;
pub use laws::{one_cut, one_to_one};
pub use value::Xfl;
