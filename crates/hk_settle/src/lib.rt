//! The settlement of queued emissions, with their callbacks.
#![tactic(auto)]

mod answering;
mod due;
mod emits;
mod kept;
mod reading;
mod settled;
mod settlement;
mod settling;
mod states;
mod waiting;

pub use due::next_due;
pub use emits::push_emits;
pub use settled::Settled;
pub use settlement::settle;
pub use states::push_states;
