//! The calls of hooks that need the ledger: rows 27 to 64 of the table of calls, as a host of the machine.
#![tactic(auto)]

mod api;
mod emission;
mod fee;
mod hooks;
mod host;
mod keylets;
mod laws;
mod shown;
mod slot_set;
mod state;
mod table;

pub use api::Api;
pub use hk_api_parts::{ChainState, Emitting, Place, Setting};
pub use laws::calls_lead;
