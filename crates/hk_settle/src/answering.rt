//! The callback of an emission.
ghost use Rattle.std.specs.Prelude.{◌≡◌, ◌+◌, ◌<◌, ◌≤◌, ◌^◌, drop, length, IfOk};
ghost use Rattle.hk_chain.specs.Programs.{AreOf, AreStored, StayKept};
ghost use Rattle.hk_draft.specs.Drafted.{draft_of};
ghost use Rattle.hk_events.specs.Limits.{most_number};
ghost use Rattle.hk_events.specs.Settled as defined;
ghost use Rattle.hk_events.specs.Settled.{argument, answered};
ghost use Rattle.hk_state.specs.Writes.{with_writes};
ghost use Rattle.hk_draft.specs.Ends as ends;
ghost use Rattle.hk_perform.specs.Needs.{AreCovered, IsSound};
ghost use Rattle.hk_draft.specs.Draft.{Draft};
ghost use Rattle.hk_settle.specs.Meets.{Answers, answered_by, answered_of};

use crate::kept::push_kept;
use crate::waiting::Waiting;
use hk_base::{AccountId, Items, NoMemory};
use hk_chain::{ChainEnd, Programs, callbacks_fit, run_callback};
use hk_emit::Emission;
use hk_engine::engines_measured;
use hk_lines::{OutputLine, Settlement};
use hk_state::{Ledger, Overlay};
use std::alloc::Global;

/// What stands after the callback, and its lines.
#[derive(Drop)]
pub(crate) struct Answered {
    pub overlay: Overlay,
    pub emissions: Items<Emission>,
    pub lines: Items<OutputLine>,
}

/// What a callback is told.
fn argument(word: Settlement) -> u32
    ensures argument { result ≡ argument word }
{
    match word {
        Settlement::Applied => 0,
        _ => 1,
    }
}

/// Equal emissions.
fn copied(alloc: Global, emissions: &[Emission]) -> Result<Items<Emission>, NoMemory>
    ensures same { IfOk result (λ copied. copied ≡ emissions.now) }
{
    let mut copied = Items::new(alloc);
    for emission in emissions {
        copied.push(emission.copy()?)?;
    }
    Ok(copied)
}

/// The emissions behind the first ones.
fn behind(emissions: &[Emission], count: usize) -> &[Emission]
    requires within { count ≤ length emissions.now }
    ensures behind { result.now ≡ drop count emissions.now }
{
    &emissions[count..]
}

/// What a callback that accepted leaves, behind so many emissions of the settlement.
fn kept(
    ledger: &Ledger,
    count: usize,
    overlay: Overlay,
    emissions: Items<Emission>,
    records: Items<OutputLine>,
) -> Result<Answered, NoMemory>
    requires within { count ≤ length emissions }
    requires numbers { ledger.now.next + length emissions ≤ most_number }
    ensures answered { IfOk result (λ a. (s : Draft) → length s.emissions ≡ count → answered_of ledger.now.entries a
        ≡ answered ledger.now.next s (ends.kept (draft_of ledger.now.entries overlay emissions) records)) }
{
    let mut lines = records;
    let first = ledger.next_number() + count as u64;
    push_kept(
        &mut lines,
        ledger,
        &overlay,
        first,
        behind(emissions.as_slice(), count),
    )?;
    Ok(Answered {
        overlay,
        emissions,
        lines,
    })
}

/// Calls back the hook that emitted on an account, with what its emission came to. What it writes and emits is kept
/// where it accepts.
fn call_back(
    alloc: Global,
    programs: &mut Programs,
    ledger: &Ledger,
    waiting: &Waiting,
    account: &AccountId,
    word: Settlement,
    overlay: Overlay,
    emissions: Items<Emission>,
) -> Result<Answered, NoMemory>
    requires sound { IsSound ledger.now waiting.now.setting }
    requires covered { AreCovered (with_writes ledger.now.entries overlay) }
    requires room { ledger.now.next + length emissions ≤ most_number }
    requires held { AreOf ledger.now.entries programs.old }
    ensures held { AreOf ledger.now.entries programs.new }
    ensures stays { StayKept programs.old programs.new }
    ensures answers { IfOk result (λ a. answered_of ledger.now.entries a
        ≡ answered_by ledger.now waiting.now account.now word (draft_of ledger.now.entries overlay emissions)) }
{
    callbacks_fit();
    engines_measured();
    let mut after = overlay.copy()?;
    after.relist();
    let count = emissions.len();
    let earlier = copied(alloc, emissions.as_slice())?;
    match run_callback(
        alloc,
        programs,
        ledger,
        after,
        earlier,
        &waiting.setting,
        account,
        &waiting.hash,
        argument(word),
    )? {
        ChainEnd::Rejected { records } => Ok(Answered {
            overlay,
            emissions,
            lines: records,
        }),
        ChainEnd::Kept {
            overlay,
            emissions,
            records,
        } => kept(ledger, count, overlay, emissions, records),
    }
}

/// The callback, where the emission names an account.
pub(crate) fn answer(
    alloc: Global,
    programs: &mut Programs,
    ledger: &Ledger,
    waiting: &Waiting,
    word: Settlement,
    overlay: Overlay,
    emissions: Items<Emission>,
) -> Result<Answered, NoMemory>
    requires sound { IsSound ledger.now waiting.now.setting }
    requires covered { AreCovered (with_writes ledger.now.entries overlay) }
    requires room { ledger.now.next + length emissions ≤ most_number }
    requires held { AreOf ledger.now.entries programs.old }
    ensures held { AreOf ledger.now.entries programs.new }
    ensures stays { StayKept programs.old programs.new }
    ensures answers { IfOk result (Answers ledger.now waiting.now word overlay emissions) }
{
    match &waiting.callback {
        None => Ok(Answered {
            overlay,
            emissions,
            lines: Items::new(alloc),
        }),
        Some(account) => call_back(
            alloc, programs, ledger, waiting, account, word, overlay, emissions,
        ),
    }
}
