//! The hooks of an account, one after the other, and callbacks.
#![tactic(auto)]

mod callback;
mod chain;
mod ending;
mod host;
mod laws;
mod programs;
mod turn;
mod work;

pub use callback::run_callback;
pub use chain::run_chain;
pub use ending::ChainEnd;
pub use host::HookHost;
pub use laws::{
    callbacks_fit, callbacks_run, calls_keep_length, chains_fit, hooks_run, lines_bounded,
};
pub use programs::Programs;
pub use work::HookRun;
