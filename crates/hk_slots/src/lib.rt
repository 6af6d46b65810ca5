//! Slots: numbered places from which a hook reads objects and their parts.
#![tactic(auto)]

mod fault;
mod part;
mod places;
mod slots;

pub use fault::SlotFault;
pub use slots::Slots;
