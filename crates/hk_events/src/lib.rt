//! The events of a ledger with hooks. Definitions and their laws; no code of its own.
#![tactic(auto)]

mod laws;

pub use laws::{
    applied_events, committing, due_falls, finds_due, namespaces_emptied, reserve_rests,
    settled_events, settles_while_due, stays_complete, stays_within, transactions_fit,
};
