//! The typing of a module's functions: the place where it fails, and how deep each function goes.
#![tactic(auto)]

mod accesses;
mod body;
mod depth;
mod labels;
mod laws;
mod open_regions;
mod operands;
mod plain;
mod region;
mod scope;
mod validation;

pub use depth::{Depth, Typed};
pub use laws::typing_decided;
pub use validation::{TypeFault, validate};
