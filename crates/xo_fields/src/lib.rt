//! The fields of the ledger's binary format: headers, lengths and amounts.
#![tactic(auto)]

mod amount;
mod field;
mod form;
mod header;
mod laws;
mod length;
mod name;

pub use amount::{Amount, AmountRead, read_amount, write_amount};
pub use field::FieldId;
pub use form::{Form, form_of};
pub use header::{HeaderRead, read_header, write_header};
pub use laws::{
    one_amount, one_amount_read, one_header, one_header_read, one_length, one_length_read,
};
pub use length::{LengthRead, read_length, write_length};
pub use name::field_by_name;
