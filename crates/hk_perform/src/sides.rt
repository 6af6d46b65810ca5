//! The chains of both sides of a transaction.
ghost use Rattle.std.specs.Prelude.{◌≡◌, ◌++◌, ◌∷◌, [], IfOk, MatchOption};
ghost use Rattle.hk_state.specs.Entries.{Entries};
ghost use Rattle.hk_state.specs.Writes.{with_writes};
ghost use Rattle.hk_draft.specs.Drafted.{draft_of};
ghost use Rattle.hk_draft.specs.Ends as ends;
ghost use Rattle.hk_chain.specs.Meets.{EndMeans};
ghost use Rattle.hk_chain.specs.Programs.{AreOf, AreStored, StayKept};
ghost use Rattle.hk_events.specs.Chains.{behind, chains, other_side, sides};
ghost use Rattle.hk_perform.specs.Meets.{chain_by};
ghost use Rattle.hk_perform.specs.Needs.{AreCovered, IsSound};

use hk_api::Setting;
use hk_base::{AccountId, Items, NoMemory};
use hk_chain::{ChainEnd, Programs, chains_fit, run_chain};
use hk_emit::Emission;
use hk_engine::engines_measured;
use hk_lines::OutputLine;
use hk_state::{Ledger, Overlay};
use std::alloc::Global;
use xo_object::Transaction;

/// A destination other than the account.
fn other_side(transaction: &Transaction) -> Option<AccountId>
    ensures other { MatchOption result
        (other_side transaction.now.account transaction.now.destination ≡ [])
        (λ to. other_side transaction.now.account transaction.now.destination ≡ to ∷ []) }
{
    match transaction.destination {
        None => None,
        Some(to) => {
            if to == transaction.account {
                None
            } else {
                Some(to)
            }
        }
    }
}

/// Lines behind earlier ones.
pub fn joined(
    earlier: Items<OutputLine>,
    more: Items<OutputLine>,
) -> Result<Items<OutputLine>, NoMemory>
    ensures joined { IfOk result (λ all. all ≡ earlier ++ more) }
{
    let mut all = earlier;
    for line in more.into_vec() {
        all.push(line)?;
    }
    Ok(all)
}

/// A chain's end with the lines of earlier runs.
fn behind(records: Items<OutputLine>, end: ChainEnd) -> Result<ChainEnd, NoMemory>
    ensures behind { IfOk result (λ after. (m : Entries) (x : ends.ChainEnd) → EndMeans m x end →
        EndMeans m (behind records x) after) }
{
    match end {
        ChainEnd::Rejected { records: more } => {
            let records = joined(records, more)?;
            Ok(ChainEnd::Rejected { records })
        }
        ChainEnd::Kept {
            overlay,
            emissions,
            records: more,
        } => {
            let records = joined(records, more)?;
            Ok(ChainEnd::Kept {
                overlay,
                emissions,
                records,
            })
        }
    }
}

/// The chain of an account behind what the other one left.
fn run_other(
    alloc: Global,
    programs: &mut Programs,
    ledger: &Ledger,
    overlay: Overlay,
    emissions: Items<Emission>,
    records: Items<OutputLine>,
    setting: &Setting,
) -> Result<ChainEnd, NoMemory>
    requires sound { IsSound ledger.now setting.now }
    requires covered { AreCovered (with_writes ledger.now.entries overlay) }
    requires held { AreOf ledger.now.entries programs.old }
    ensures held { AreOf ledger.now.entries programs.new }
    ensures stays { StayKept programs.old programs.new }
    ensures chain { IfOk result (EndMeans ledger.now.entries (behind records
        (chains (chain_by ledger.now setting.now)
        (other_side setting.now.transaction.account setting.now.transaction.destination)
        (draft_of ledger.now.entries overlay emissions)))) }
{
    match other_side(&setting.transaction) {
        None => Ok(ChainEnd::Kept {
            overlay,
            emissions,
            records,
        }),
        Some(to) => {
            let end = run_chain(alloc, programs, ledger, overlay, emissions, setting, &to)?;
            behind(records, end)
        }
    }
}

/// The chain of the account, and then that of another destination.
pub(crate) fn run_sides(
    alloc: Global,
    programs: &mut Programs,
    ledger: &Ledger,
    overlay: Overlay,
    setting: &Setting,
) -> Result<ChainEnd, NoMemory>
    requires sound { IsSound ledger.now setting.now }
    requires covered { AreCovered (with_writes ledger.now.entries overlay) }
    requires held { AreOf ledger.now.entries programs.old }
    ensures held { AreOf ledger.now.entries programs.new }
    ensures stays { StayKept programs.old programs.new }
    ensures chains { IfOk result (EndMeans ledger.now.entries
        (chains (chain_by ledger.now setting.now) (sides setting.now.transaction)
        (draft_of ledger.now.entries overlay []))) }
{
    chains_fit();
    engines_measured();
    let account = &setting.transaction.account;
    let emissions = Items::new(alloc);
    match run_chain(
        alloc, programs, ledger, overlay, emissions, setting, account,
    )? {
        ChainEnd::Rejected { records } => Ok(ChainEnd::Rejected { records }),
        ChainEnd::Kept {
            overlay,
            emissions,
            records,
        } => run_other(
            alloc, programs, ledger, overlay, emissions, records, setting,
        ),
    }
}
