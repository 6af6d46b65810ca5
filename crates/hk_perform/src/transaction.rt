//! A transaction that was read.
ghost use Rattle.std.specs.Prelude.{◌≡◌, IfOk};
ghost use Rattle.hk_chain.specs.Programs.{AreOf, AreStored, StayKept};
ghost use Rattle.hk_events.specs.Performed as defined;
ghost use Rattle.hk_state.specs.Ledger.{LedgerValue};
ghost use Rattle.hk_events.specs.Results.{paid};
ghost use Rattle.hk_perform.specs.Meets.{IsPerformed, found_by, origin_of, transaction_by};
ghost use Rattle.hk_perform.specs.Needs.{CanPay, IsReady};

use crate::acting::act;
use crate::charging::{begin, charge};
use crate::origin::Origin;
use crate::performed::Performed;
use crate::refusal::refusal;
use crate::sides::run_sides;
use hk_api::Setting;
use hk_base::{Items, NoMemory};
use hk_chain::{ChainEnd, Programs, chains_fit};
use hk_engine::{engines_measured, stores_bounds};
use hk_lines::{OutputLine, ResultName};
use hk_state::{Done, Ledger, Transactor};
use std::alloc::Global;
use xo_object::Transaction;

/// Nothing is kept, and no fee is taken.
fn refused(alloc: Global, origin: Origin, name: ResultName) -> Result<Performed, NoMemory>
    ensures refused { IfOk result (λ answer. (ledger : LedgerValue) →
        IsPerformed ledger.entries (defined.refused (found_by ledger origin).entries name) answer) }
{
    let overlay = begin(alloc, origin)?;
    Ok(Performed {
        result: name,
        fee: 0,
        overlay,
        emissions: Items::new(alloc),
        records: Items::new(alloc),
    })
}

/// Fee and sequence alone are kept, and the lines of the hooks that ran.
fn failed(
    alloc: Global,
    ledger: &Ledger,
    origin: Origin,
    transaction: &Transaction,
    name: ResultName,
    records: Items<OutputLine>,
) -> Result<Performed, NoMemory>
    requires pays { CanPay ledger.now.entries (origin_of origin) transaction.now }
    ensures failed { IfOk result (IsPerformed ledger.now.entries (defined.failed
        (paid (found_by ledger.now origin).entries (origin_of origin) transaction.now) transaction.now name records)) }
{
    let overlay = charge(alloc, ledger, origin, transaction)?;
    Ok(Performed {
        result: name,
        fee: transaction.fee,
        overlay,
        emissions: Items::new(alloc),
        records,
    })
}

/// Performs a transaction on a ledger, which it leaves as it is: what is kept stands in the answer's overlay and
/// emissions.
///
/// # Errors
///
/// `NoMemory`; what was kept of programs stays good.
pub fn perform<T: Transactor>(
    alloc: Global,
    programs: &mut Programs,
    ledger: &Ledger,
    rules: &T,
    origin: Origin,
    setting: &Setting,
) -> Result<Performed, NoMemory>
    requires ready { IsReady ledger.now setting.now }
    requires stored { AreStored ledger.now.entries }
    requires held { AreOf ledger.now.entries programs.old }
    ensures held { AreOf ledger.now.entries programs.new }
    ensures stays { StayKept programs.old programs.new }
    ensures performed { IfOk result (IsPerformed ledger.now.entries
        (transaction_by T.rules ledger.now origin setting.now.transaction)) }
{
    chains_fit();
    engines_measured();
    stores_bounds();
    let transaction = &setting.transaction;
    if let Some(name) = refusal(ledger, origin, transaction) {
        return refused(alloc, origin, name);
    }
    let overlay = charge(alloc, ledger, origin, transaction)?;
    match run_sides(alloc, programs, ledger, overlay, setting)? {
        ChainEnd::Rejected { records } => failed(
            alloc,
            ledger,
            origin,
            transaction,
            ResultName::HookRejected,
            records,
        ),
        ChainEnd::Kept {
            overlay,
            emissions,
            records,
        } => match act(alloc, ledger, rules, overlay, transaction)? {
            Done::Failed(name) => failed(alloc, ledger, origin, transaction, name, records),
            Done::Kept(overlay) => Ok(Performed {
                result: ResultName::Success,
                fee: transaction.fee,
                overlay,
                emissions,
                records,
            }),
        },
    }
}
