//! Where a transaction comes from.
use hk_lines::Verdict;

/// Where a transaction comes from.
#[derive(Clone, Copy, Debug, Drop)]
pub enum Origin {
    /// It is handed in, with a verdict on its signature.
    Handed(Verdict),
    /// It waits in the queue under this number, and leaves it.
    Queued(u64),
}
