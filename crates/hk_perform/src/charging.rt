//! Fee and sequence.
ghost use Rattle.std.specs.Prelude.{◌≡◌, [], IfOk};
ghost use Rattle.hk_draft.specs.Draft.{draft_on};
ghost use Rattle.hk_draft.specs.Drafted.{draft_of};
ghost use Rattle.hk_events.specs.Results.{next_sequence, paid};
ghost use Rattle.hk_state.specs.Ledger.{LedgerValue};
ghost use Rattle.hk_perform.specs.Meets.{found_by, origin_of};
ghost use Rattle.hk_perform.specs.Needs.{CanPay, HasNext};

use crate::origin::Origin;
use hk_base::NoMemory;
use hk_state::{Holding, Key, Ledger, Overlay};
use std::alloc::Global;
use xo_object::Transaction;

/// An overlay in which nothing is written, but that an emission has left the queue.
pub fn begin(alloc: Global, origin: Origin) -> Result<Overlay, NoMemory>
    ensures began { IfOk result (λ overlay. (ledger : LedgerValue) →
        draft_of ledger.entries overlay [] ≡ draft_on (found_by ledger origin).entries) }
{
    let mut overlay = Overlay::new(alloc);
    if let Origin::Queued(number) = origin {
        overlay.remove(Key::Emitted(number))?;
    }
    Ok(overlay)
}

/// The sequence that an account has next.
fn next_sequence(origin: Origin, sequence: u32) -> u32
    requires next { HasNext (origin_of origin) sequence }
    ensures next { result ≡ next_sequence (origin_of origin) sequence }
{
    match origin {
        Origin::Handed(_) => sequence + 1,
        Origin::Queued(_) => sequence,
    }
}

/// An overlay that takes fee and sequence from the account, and an emission from the queue.
pub(crate) fn charge(
    alloc: Global,
    ledger: &Ledger,
    origin: Origin,
    transaction: &Transaction,
) -> Result<Overlay, NoMemory>
    requires pays { CanPay ledger.now.entries (origin_of origin) transaction.now }
    ensures charged { IfOk result (λ overlay. draft_of ledger.now.entries overlay []
        ≡ draft_on (paid (found_by ledger.now origin).entries (origin_of origin) transaction.now)) }
{
    let mut overlay = begin(alloc, origin)?;
    let Some(holding) = ledger.holding(&transaction.account) else {
        return Ok(overlay);
    };
    let left = Holding {
        balance: holding.balance - transaction.fee,
        sequence: next_sequence(origin, holding.sequence),
    };
    overlay.put_holding(&transaction.account, left)?;
    Ok(overlay)
}
