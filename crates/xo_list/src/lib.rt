//! Lists of fields in the ledger's binary format: skipping, finding, reading and building.
#![tactic(auto)]

mod builder;
mod check;
mod fault;
mod find;
mod laws;
mod object;
mod skip;
mod span;

pub use builder::{ObjectBuilder, PutFault};
pub use check::check_object;
pub use fault::ObjectFault;
pub use find::{Located, Passed, count_elements, element, find_field, locate, skip_elements};
pub use laws::{edits, more_room, one_array, one_field, one_reading, one_spelling};
pub use object::{Object, collect, read_elements, read_object};
pub use skip::{Place, Skipped, skip_fields, skip_value};
pub use span::Span;
