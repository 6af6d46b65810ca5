//! The settlement of an emission, with its callback.
ghost use Rattle.std.specs.Prelude.{◌≡◌, ◌+◌, ◌≤◌, ◌++◌, ◌∷◌, length, IfOk};
ghost use Rattle.hk_chain.specs.Programs.{AreOf, AreStored, StayKept};
ghost use Rattle.hk_draft.specs.Drafted.{draft_of};
ghost use Rattle.hk_engine.specs.Engine.{engine_of};
ghost use Rattle.hk_events.specs.Events.{kept_lines};
ghost use Rattle.hk_events.specs.Laws.{DueAt};
ghost use Rattle.hk_events.specs.Limits.{most_number};
ghost use Rattle.hk_events.specs.Settled as defined;
ghost use Rattle.hk_lines.specs.declared.output_line.OutputLine.TheVariants as printed;
ghost use Rattle.hk_settle.specs.Meets.{left_by};
ghost use Rattle.hk_settle.specs.Needs.{IsSteady};

use crate::Settled;
use crate::answering::{Answered, answer};
use crate::kept::push_kept;
use crate::settling::{Settling, settle_waiting};
use crate::waiting::find_waiting;
use hk_base::{Items, NoMemory};
use hk_chain::Programs;
use hk_emit::Emission;
use hk_engine::{engines_lawful, engines_measured, stores_bounds};
use hk_lines::{OutputLine, ResultName, Settlement};
use hk_perform::joined;
use hk_state::{Ledger, Overlay, Transactor};
use std::alloc::Global;

/// The lines of a settlement before its callback: its own, those of the hooks that ran, and those of what is kept.
fn settled_lines(
    alloc: Global,
    ledger: &Ledger,
    number: u64,
    word: Settlement,
    name: Option<ResultName>,
    fee: u64,
    overlay: &Overlay,
    emissions: &[Emission],
    records: Items<OutputLine>,
) -> Result<Items<OutputLine>, NoMemory>
    requires room { ledger.now.next + length emissions.now ≤ most_number }
    ensures lines { IfOk result (λ lines. lines ≡ printed.Settled number word name fee
        ∷ kept_lines ledger.now.next (draft_of ledger.now.entries overlay.now emissions.now) records) }
{
    let mut first = Items::new(alloc);
    first.push(OutputLine::Settled {
        number,
        word,
        result: name,
        fee,
    })?;
    let mut lines = joined(first, records)?;
    push_kept(&mut lines, ledger, overlay, ledger.next_number(), emissions)?;
    Ok(lines)
}

/// Settles the emission under a number that is due: its transaction on the ledger without it, or, where its last ledger
/// has passed, nothing; and then the callback of the hook that emitted it. The ledger stays as it is: what is kept
/// stands in the answer.
///
/// # Errors
///
/// `NoMemory`; what was kept of programs stays good.
pub fn settle<T: Transactor>(
    alloc: Global,
    programs: &mut Programs,
    ledger: &Ledger,
    rules: &T,
    number: u64,
) -> Result<Settled, NoMemory>
    requires steady { IsSteady ledger.now }
    requires due { DueAt ledger.now number }
    requires stored { AreStored ledger.now.entries }
    requires held { AreOf ledger.now.entries programs.old }
    ensures held { AreOf ledger.now.entries programs.new }
    ensures stays { StayKept programs.old programs.new }
    ensures left { IfOk result (λ answer.
        left_by ledger.now answer ≡ defined.settled (engine_of T.rules) ledger.now number) }
{
    engines_lawful();
    engines_measured();
    stores_bounds();
    let waiting = find_waiting(alloc, ledger, number)?;
    let Settling {
        word,
        result,
        fee,
        overlay,
        emissions,
        records,
    } = settle_waiting(alloc, programs, ledger, rules, number, &waiting)?;
    let lines = settled_lines(
        alloc,
        ledger,
        number,
        word,
        result,
        fee,
        &overlay,
        emissions.as_slice(),
        records,
    )?;
    let Answered {
        overlay,
        emissions,
        lines: more,
    } = answer(alloc, programs, ledger, &waiting, word, overlay, emissions)?;
    let lines = joined(lines, more)?;
    Ok(Settled {
        result,
        fee,
        overlay,
        emissions,
        lines,
    })
}
