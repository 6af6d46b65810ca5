//! A transaction on a ledger with hooks: its results in order, the chains of both sides, and what it does itself.
#![tactic(auto)]

mod acting;
mod charging;
mod origin;
mod performed;
mod refusal;
mod sides;
mod transaction;

pub use charging::begin;
pub use origin::Origin;
pub use performed::Performed;
pub use sides::joined;
pub use transaction::perform;
