//! What a transaction comes to.
use hk_base::Items;
use hk_emit::Emission;
use hk_lines::{OutputLine, ResultName};
use hk_state::Overlay;

/// What a transaction comes to.
#[derive(Drop)]
pub struct Performed {
    pub result: ResultName,
    /// The fee that is burnt, in drops.
    pub fee: u64,
    /// What is kept of all writes.
    pub overlay: Overlay,
    /// What is kept of all emissions.
    pub emissions: Items<Emission>,
    /// The lines of the hooks that ran.
    pub records: Items<OutputLine>,
}
