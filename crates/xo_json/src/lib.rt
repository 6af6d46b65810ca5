//! Objects, and the JSON texts that they are read from.
#![tactic(auto)]

mod amount;
mod decimal;
mod key;
mod plain;
mod reading;

pub use reading::read_json;
pub use xo_showing::{
    any_order, field_name, names_back, one_key, one_showing, print_json, put_shows, worked_texts,
};
pub use xo_told::{JsonFault, told_refuses, told_shows};
