//! The rules that all rows of the table of calls share: their codes, arguments, conditions and outputs.
#![tactic(auto)]

mod arguments;
mod code;
mod laws;
mod outputs;
mod refusal;
mod rules;

pub use arguments::{Pair, exponent, narrow, pair_at, wide};
pub use code::Code;
pub use laws::length_stays;
pub use outputs::{put_out, write_or_number, write_out};
pub use refusal::Refusal;
pub use rules::{account_of, field, hash_of, inside, key, name, read, refuse};
