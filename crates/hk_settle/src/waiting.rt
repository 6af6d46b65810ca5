//! An emission that waits in the queue.
ghost use Rattle.std.specs.Prelude.{◌≡◌, IfOk};
ghost use Rattle.hk_draft.specs.Reads.{reads_emitted};
ghost use Rattle.hk_events.specs.Good.{IsGood};
ghost use Rattle.hk_events.specs.Laws.{DueAt};
ghost use Rattle.hk_settle.specs.Waits.{Waits};

use crate::reading::read_emitted;
use hk_api::Setting;
use hk_base::{AccountId, Hash256, NoMemory};
use hk_state::{Entry, Key, Ledger};
use std::alloc::Global;

/// An emission that waits in the queue, with its transaction on the open ledger.
#[derive(Drop)]
pub(crate) struct Waiting {
    pub setting: Setting,
    /// The hash of the hook that emitted it.
    pub hash: Hash256,
    /// The first ledger that takes it.
    pub first: u32,
    /// The last ledger that takes it.
    pub last: u32,
    /// The account whose hook is called back.
    pub callback: Option<AccountId>,
}

/// The emission under a number, where one is due.
pub(crate) fn find_waiting(alloc: Global, ledger: &Ledger, number: u64) -> Result<Waiting, NoMemory>
    requires queue { IsGood reads_emitted ledger.now }
    requires due { DueAt ledger.now number }
    ensures waits { IfOk result (Waits ledger.now number) }
{
    let Some(
        Entry::Emitted {
            blob,
            hash,
            first,
            last,
            callback,
        },
    ) = ledger.get(&Key::Emitted(number))
    else {
        unreachable!()
    };
    let Some(transaction) = read_emitted(alloc, blob.as_slice())? else {
        unreachable!()
    };
    Ok(Waiting {
        setting: Setting {
            transaction,
            header: ledger.header(),
        },
        hash: *hash,
        first: *first,
        last: *last,
        callback: *callback,
    })
}
