//! What an event did.
ghost use Rattle.std.specs.Prelude.{◌≡◌, [], Some};

use hk_base::Items;
use hk_lines::{OutputLine, ResultName};
use std::alloc::Global;

/// What an event did.
#[derive(Debug, Drop)]
pub struct Report {
    pub result: Option<ResultName>,
    /// The fee that was taken, in drops.
    pub fee: u64,
    /// The lines that follow the event's own.
    pub lines: Items<OutputLine>,
}

impl Report {
    /// The report of a transaction that changes nothing. It takes no memory.
    pub(crate) fn refused(alloc: Global, name: ResultName) -> Report
        ensures report { result ≡ record { result = Some name; fee = 0; lines = [] } }
    {
        Report {
            result: Some(name),
            fee: 0,
            lines: Items::new(alloc),
        }
    }
}
