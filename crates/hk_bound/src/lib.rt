//! The bound on the turns of a hook's runs, and the check of a hook's code.
#![tactic(auto)]

mod bounding;
mod checked;
mod checking;
mod entries;
mod fault;
mod laws;
mod weighing;

pub use bounding::{bound, bound_at};
pub use checked::Checked;
pub use checking::{check, check_at};
pub use entries::Entry;
pub use fault::{CheckFault, Export};
pub use laws::{
    accepted_is_hook, entry_types, guarded_loops, one_refusal, one_verdict, some_verdict, typables,
};
