//! How the hooks of an account end.
use hk_base::Items;
use hk_emit::Emission;
use hk_lines::OutputLine;
use hk_state::Overlay;

/// How the hooks of an account, or a callback, end.
#[derive(Drop)]
pub enum ChainEnd {
    /// Each hook that ran accepted: what was written and emitted, and the lines of the runs.
    Kept {
        overlay: Overlay,
        emissions: Items<Emission>,
        records: Items<OutputLine>,
    },
    /// A hook ended otherwise: the lines of the runs up to its own.
    Rejected {
        records: Items<OutputLine>,
    },
}
