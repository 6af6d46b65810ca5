//! The ledger as a map from keys to entries, changes to it that are made whole or not at all, and the rules for
//! transactions.
#![tactic(auto)]

mod commit;
mod entries;
mod entry;
mod fees;
mod firing;
mod grants;
mod installs;
mod key;
mod least;
mod ledger;
mod native;
mod overlay;
mod reserves;
mod transactor;

pub use entry::{Entry, Holding};
pub use fees::needed_fee;
pub use firing::fires;
pub use grants::may_write;
pub use installs::{install_at, next_install};
pub use key::{Key, StateKey, as_key};
pub use ledger::{Header, Ledger};
pub use native::Native;
pub use overlay::Overlay;
pub use reserves::{is_own, reserve};
pub use transactor::{Done, Transactor};
