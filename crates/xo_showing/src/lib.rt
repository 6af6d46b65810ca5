//! How an object shows as JSON, and the text that it shows as.
#![tactic(auto)]

mod amount;
mod key;
mod laws;
mod name;
mod printing;
mod value;

pub use laws::{any_order, names_back, one_key, one_showing, put_shows, worked_texts};
pub use name::field_name;
pub use printing::print_json;
