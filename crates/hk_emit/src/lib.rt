//! Emissions: transactions that a hook puts into the ledger's queue.
#![tactic(auto)]

mod accept;
mod context;
mod emission;
mod emit_details;
mod fault;
mod laws;
mod names;
mod numbers;
mod written;

pub use accept::accept_emission;
pub use context::EmitContext;
pub use emission::Emission;
pub use emit_details::details;
pub use fault::EmitFault;
pub use laws::accepted_reads;
pub use numbers::{burden, nonce};
