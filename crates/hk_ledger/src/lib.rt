//! The ledger and what changes it: accounts, opened ledgers, transactions and settlements.
#![tactic(auto)]

mod entering;
mod laws;
mod queue;
mod replay;
mod report;
mod settlements;
mod transactions;
mod world;

pub use laws::conserves;
pub use replay::{Replay, Stepped};
pub use report::Report;
pub use settlements::{settle_due, settle_next};
pub use transactions::apply;
pub use world::{OpenFault, World, open_account, open_ledger};
