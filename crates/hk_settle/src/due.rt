//! The emissions that are due.
ghost use Rattle.std.specs.Prelude.{◌≡◌, ◌<◌, ◌^◌, MatchOption};
ghost use Rattle.hk_events.specs.Good.{IsGood};
ghost use Rattle.hk_events.specs.Settled.{is_due};
ghost use Rattle.hk_draft.specs.Reads.{reads_emitted};
ghost use Rattle.hk_settle.specs.Due.{IsNext, NoneFrom};

use hk_state::{Entry, Key, Ledger};

/// The least number from this one on under which an emission is due: its first ledger isn't after the open one.
pub fn next_due(ledger: &Ledger, from: u64) -> Option<u64>
    requires queue { IsGood reads_emitted ledger.now }
    requires next { ledger.now.next < 2 ^ 64 }
    ensures due { MatchOption result (NoneFrom ledger.now from) (IsNext ledger.now from) }
{
    let seq = ledger.header().seq;
    let mut next = from;
    while let Some((Key::Emitted(number), entry)) = ledger.least_from(&Key::Emitted(next)) {
        if is_due(seq, entry) {
            return Some(*number);
        }
        next = *number + 1;
    }
    None
}

/// Whether an entry is an emission that the ledger of this sequence number takes, or comes too late for.
fn is_due(seq: u32, entry: &Entry) -> bool
    ensures due { result ≡ is_due seq entry.now }
{
    match entry {
        Entry::Emitted { first, .. } => *first <= seq,
        _ => false,
    }
}
