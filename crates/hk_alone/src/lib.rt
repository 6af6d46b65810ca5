//! One hook, run alone: on a ledger of one account, on which it is installed, before an Invoke of that account.
#![tactic(auto)]

mod alone;
mod context;

pub use alone::run_alone;
