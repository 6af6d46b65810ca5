//! The runs of a hook's exports.
#![tactic(auto)]

mod instance;
mod laws;
mod starting;

pub use hk_bound::Export;
pub use instance::Instance;
pub use laws::{code_run_ends, code_run_is, codes_run, one_ending, runs_within};
pub use wa_run::Ended;
