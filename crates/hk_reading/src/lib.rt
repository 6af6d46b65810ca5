//! What the bytes of a transaction read as, as a function of the bytes.
#![tactic(auto)]

mod laws;
mod reading;

pub use laws::{reads_one_way, transactions_found};
pub use reading::{Reading, object_of, read};
