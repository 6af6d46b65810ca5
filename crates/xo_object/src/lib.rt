//! Objects of the ledger's binary format, and the transactions that they are.
#![tactic(auto)]

mod hooks;
mod lists;
mod names;
mod reading;
mod terms;
mod transact;
mod transaction;

pub use reading::TransactionFault;
pub use transact::read_transaction;
pub use transaction::{Grant, HookItem, Parameter, Transaction, copy_parameters};
pub use xo_list::{
    Located, Object, ObjectBuilder, ObjectFault, Passed, Place, PutFault, Skipped, Span,
    check_object, collect, count_elements, edits, element, find_field, locate, more_room,
    one_array, one_field, one_reading, one_spelling, read_elements, read_object, skip_elements,
    skip_fields, skip_value,
};
