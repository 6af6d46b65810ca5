//! What passes from hook to hook, and what a hook's turn comes to.
ghost use Rattle.std.specs.Prelude.{◌≡◌};
ghost use Rattle.hk_chain.specs.Chain.{no_chain};

use hk_api::ChainState;
use hk_base::{Items, Outcome};
use hk_emit::Emission;
use hk_state::Overlay;
use std::alloc::Global;

/// How a hook's run ended, after how many steps, and the most that it could take.
#[derive(Debug, Drop)]
pub struct HookRun {
    pub outcome: Outcome,
    pub count: u64,
    pub bound: u64,
}

/// What was written and emitted so far, and what hooks pass on to those after them.
#[derive(Drop)]
pub(crate) struct Work {
    pub overlay: Overlay,
    pub emissions: Items<Emission>,
    pub chain: ChainState,
}

/// A hook's turn.
#[derive(Drop)]
pub(crate) enum Played {
    /// Nothing ran.
    Idle(Work),
    Ran(Work, HookRun),
}

/// Nothing is skipped or overridden. It takes no memory.
pub(crate) fn no_chain(alloc: Global) -> ChainState
    ensures chain { result ≡ no_chain }
{
    ChainState {
        skipped: Items::new(alloc),
        overrides: Items::new(alloc),
    }
}
