//! A change of hooks: its items, one for each position of an account, and the reserve that they leave.
#![tactic(auto)]

mod creating;
mod installing;
mod laws;
mod namespaces;
mod performing;
mod place;

pub use laws::{codes_fit, transactions_are_right};
pub use performing::set_hooks;
