//! Parts and edits of objects that stand as bytes.
#![tactic(auto)]

mod edit;
mod fault;
mod part;

pub use edit::{emplace, erase};
pub use fault::EditFault;
pub use part::{subarray, subfield, validate};
