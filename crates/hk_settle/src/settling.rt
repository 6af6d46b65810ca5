//! What comes of an emission, before its callback.
ghost use Rattle.std.specs.Prelude.{◌≡◌, IfOk};
ghost use Rattle.hk_chain.specs.Programs.{AreOf, AreStored, StayKept};
ghost use Rattle.hk_events.specs.Settled as defined;
ghost use Rattle.hk_events.specs.Settled.{word_of, without};
ghost use Rattle.hk_state.specs.Ledger.{LedgerValue};
ghost use Rattle.hk_settle.specs.Meets.{settled_by, settling_of};
ghost use Rattle.hk_settle.specs.Needs.{IsSteady};
ghost use Rattle.hk_settle.specs.Waits.{Waits};

use crate::waiting::Waiting;
use hk_base::{Items, NoMemory};
use hk_chain::Programs;
use hk_emit::Emission;
use hk_lines::{OutputLine, ResultName, Settlement};
use hk_perform::{Origin, Performed, begin, perform};
use hk_state::{Ledger, Overlay, Transactor};
use std::alloc::Global;

/// What comes of an emission, before its callback.
#[derive(Drop)]
pub(crate) struct Settling {
    pub word: Settlement,
    pub result: Option<ResultName>,
    /// The fee that is burnt, in drops.
    pub fee: u64,
    /// What is kept of all writes.
    pub overlay: Overlay,
    /// What is kept of all emissions.
    pub emissions: Items<Emission>,
    /// The lines of the hooks that ran.
    pub records: Items<OutputLine>,
}

/// An emission that no ledger takes any more leaves the queue.
fn expired(alloc: Global, number: u64) -> Result<Settling, NoMemory>
    ensures expired { IfOk result (λ s. (ledger : LedgerValue) →
        settling_of ledger.entries s ≡ defined.expired (without ledger number).entries) }
{
    let overlay = begin(alloc, Origin::Queued(number))?;
    Ok(Settling {
        word: Settlement::Expired,
        result: None,
        fee: 0,
        overlay,
        emissions: Items::new(alloc),
        records: Items::new(alloc),
    })
}

/// Applied where a fee was taken.
fn word_of(fee: u64) -> Settlement
    ensures word { result ≡ word_of fee }
{
    if fee > 0 {
        Settlement::Applied
    } else {
        Settlement::Refused
    }
}

/// Performs the transaction of an emission on the ledger without it, or lets it expire.
pub(crate) fn settle_waiting<T: Transactor>(
    alloc: Global,
    programs: &mut Programs,
    ledger: &Ledger,
    rules: &T,
    number: u64,
    waiting: &Waiting,
) -> Result<Settling, NoMemory>
    requires steady { IsSteady ledger.now }
    requires waits { Waits ledger.now number waiting.now }
    requires stored { AreStored ledger.now.entries }
    requires held { AreOf ledger.now.entries programs.old }
    ensures held { AreOf ledger.now.entries programs.new }
    ensures stays { StayKept programs.old programs.new }
    ensures settled { IfOk result (λ s.
        settling_of ledger.now.entries s ≡ settled_by T.rules ledger.now number waiting.now) }
{
    if waiting.last < ledger.header().seq {
        return expired(alloc, number);
    }
    let origin = Origin::Queued(number);
    let Performed {
        result,
        fee,
        overlay,
        emissions,
        records,
    } = perform(alloc, programs, ledger, rules, origin, &waiting.setting)?;
    Ok(Settling {
        word: word_of(fee),
        result: Some(result),
        fee,
        overlay,
        emissions,
        records,
    })
}
