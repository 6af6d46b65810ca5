//! What a settlement comes to.
use hk_base::Items;
use hk_emit::Emission;
use hk_lines::{OutputLine, ResultName};
use hk_state::Overlay;

/// What the settlement of an emission comes to, with its callback.
#[derive(Drop)]
pub struct Settled {
    /// The result of its transaction, none where it expired.
    pub result: Option<ResultName>,
    /// The fee that is burnt, in drops.
    pub fee: u64,
    /// What is kept of all writes: the emission has left the queue.
    pub overlay: Overlay,
    /// What is kept of all emissions.
    pub emissions: Items<Emission>,
    pub lines: Items<OutputLine>,
}
