//! What is kept of an event enters the ledger.
ghost use Rattle.std.specs.Prelude.{◌≡◌, ◌+◌, ◌<◌, ◌≤◌, ◌^◌, length, IfOk, OnErr, OnOk};
ghost use Rattle.hk_draft.specs.Drafted.{draft_of};
ghost use Rattle.hk_events.specs.Events.{applied_by, entered};
ghost use Rattle.hk_events.specs.Limits.{most_number};
ghost use Rattle.hk_ledger.specs.Reports.{event_of, performed_of};
ghost use Rattle.hk_settle.specs.Meets.{left_by};

use crate::Report;
use crate::queue::queue_all;
use hk_base::{Items, NoMemory};
use hk_emit::Emission;
use hk_perform::Performed;
use hk_settle::{Settled, push_emits, push_states};
use hk_state::{Ledger, Overlay};

/// Makes kept writes, queues kept emissions under the next numbers, and burns a fee.
///
/// # Errors
///
/// `NoMemory`, and then the ledger is as it was.
fn store(
    ledger: &mut Ledger,
    overlay: Overlay,
    emissions: Items<Emission>,
    fee: u64,
) -> Result<(), NoMemory>
    requires numbers { ledger.old.next + length emissions ≤ most_number }
    requires burnt { ledger.old.burnt + fee < 2 ^ 64 }
    ensures ok { OnOk result (ledger.new ≡ entered ledger.old (draft_of ledger.old.entries overlay emissions) fee) }
    ensures err { OnErr result (ledger.new ≡ ledger.old) }
{
    let count = emissions.len() as u64;
    let queued = queue_all(overlay, ledger.next_number(), emissions)?;
    ledger.commit(queued, count, fee)
}

/// Lets a transaction that was performed enter the ledger.
///
/// # Errors
///
/// `NoMemory`, and then the ledger is as it was.
pub(crate) fn enter(ledger: &mut Ledger, performed: Performed) -> Result<Report, NoMemory>
    requires numbers { ledger.old.next + length performed.emissions ≤ most_number }
    requires burnt { ledger.old.burnt + performed.fee < 2 ^ 64 }
    ensures ok { IfOk result (λ report. event_of ledger.new report
        ≡ applied_by ledger.old (performed_of ledger.old.entries performed)) }
    ensures err { OnErr result (ledger.new ≡ ledger.old) }
{
    let Performed {
        result,
        fee,
        overlay,
        emissions,
        records,
    } = performed;
    let mut lines = records;
    push_states(&mut lines, ledger, &overlay)?;
    push_emits(&mut lines, ledger.next_number(), emissions.as_slice())?;
    store(ledger, overlay, emissions, fee)?;
    Ok(Report {
        result: Some(result),
        fee,
        lines,
    })
}

/// Lets a settlement enter the ledger.
///
/// # Errors
///
/// `NoMemory`, and then the ledger is as it was.
pub(crate) fn enter_settled(ledger: &mut Ledger, settled: Settled) -> Result<Report, NoMemory>
    requires numbers { ledger.old.next + length settled.emissions ≤ most_number }
    requires burnt { ledger.old.burnt + settled.fee < 2 ^ 64 }
    ensures ok { IfOk result (λ report. event_of ledger.new report ≡ left_by ledger.old settled) }
    ensures err { OnErr result (ledger.new ≡ ledger.old) }
{
    let Settled {
        result,
        fee,
        overlay,
        emissions,
        lines,
    } = settled;
    store(ledger, overlay, emissions, fee)?;
    Ok(Report { result, fee, lines })
}
