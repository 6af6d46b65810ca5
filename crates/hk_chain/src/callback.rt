//! The callback of a settled emission.
ghost use Rattle.std.specs.Prelude.{◌≡◌, IfOk};
ghost use Rattle.hk_draft.specs.Drafted.{draft_of};
ghost use Rattle.hk_api.specs.Fits.{IsFit};
ghost use Rattle.hk_state.specs.Writes.{with_writes};
ghost use Rattle.hk_draft.specs.Ends as ends;
ghost use Rattle.hk_state.specs.Entries.{Entries};
ghost use Rattle.hk_chain.specs.Callback.{callback_at, callback_line, callback_of, called};
ghost use Rattle.hk_chain.specs.Plays.{plays};
ghost use Rattle.hk_chain.specs.Meets.{EndMeans, IsPlay, PlayedFits, WorkFits, passing};
ghost use Rattle.hk_chain.specs.Programs.{AreOf, AreStored, StayKept};

use crate::chain::{POSITIONS, is_accepted};
use crate::ending::ChainEnd;
use crate::programs::Programs;
use crate::turn::{Turn, run_turn};
use crate::work::{HookRun, Played, Work, no_chain};
use hk_api::Setting;
use hk_base::{AccountId, Hash256, Items, NoMemory};
use hk_bound::Export;
use hk_emit::Emission;
use hk_lines::OutputLine;
use hk_state::{Entry, Key, Ledger, Overlay};
use std::alloc::Global;

/// Calls back the first hook of an account that has this hash and a `cbak`, with this argument. Kept without a line
/// where there is none.
///
/// # Errors
///
/// `NoMemory`; what was kept of programs stays good.
pub fn run_callback(
    alloc: Global,
    programs: &mut Programs,
    ledger: &Ledger,
    overlay: Overlay,
    emissions: Items<Emission>,
    setting: &Setting,
    account: &AccountId,
    hash: &Hash256,
    argument: u32,
) -> Result<ChainEnd, NoMemory>
    requires fits { IsFit setting.now ledger.now.entries (with_writes ledger.now.entries overlay) }
    requires stored { AreStored ledger.now.entries }
    requires held { AreOf ledger.now.entries programs.old }
    ensures held { AreOf ledger.now.entries programs.new }
    ensures stays { StayKept programs.old programs.new }
    ensures callback { IfOk result (EndMeans ledger.now.entries
        (callback_of setting.now ledger.now.next ledger.now.entries account.now hash.now argument
        (draft_of ledger.now.entries overlay emissions))) }
{
    let mut work = Work {
        overlay,
        emissions,
        chain: no_chain(alloc),
    };
    for position in 0..POSITIONS {
        match call_back(
            alloc, programs, ledger, setting, account, hash, argument, position, work,
        )? {
            Played::Idle(next) => work = next,
            Played::Ran(next, run) => return called_end(alloc, account, position, next, run),
        }
    }
    let Work {
        overlay,
        emissions,
        ..
    } = work;
    Ok(ChainEnd::Kept {
        overlay,
        emissions,
        records: Items::new(alloc),
    })
}

/// The end of a callback that ran.
fn called_end(
    alloc: Global,
    account: &AccountId,
    position: u8,
    work: Work,
    run: HookRun,
) -> Result<ChainEnd, NoMemory>
    ensures called { IfOk result (λ end. (m : Entries) (later : ends.ChainEnd) →
        EndMeans m (called account.now position (plays (passing m work) run) later) end) }
{
    let accepted = is_accepted(&run.outcome);
    let mut records = Items::new(alloc);
    records.push(callback_line(account, position, run))?;
    if !accepted {
        return Ok(ChainEnd::Rejected { records });
    }
    let Work {
        overlay,
        emissions,
        ..
    } = work;
    Ok(ChainEnd::Kept {
        overlay,
        emissions,
        records,
    })
}

fn callback_line(account: &AccountId, position: u8, run: HookRun) -> OutputLine
    ensures line { result ≡ callback_line account.now position run }
{
    OutputLine::Callback {
        account: *account,
        position,
        outcome: run.outcome,
        count: run.count,
        bound: run.bound,
    }
}

/// The turn of a position.
#[tactic(auto, unfolding(crate::specs::Callback::callback_at))]
fn call_back(
    alloc: Global,
    programs: &mut Programs,
    ledger: &Ledger,
    setting: &Setting,
    account: &AccountId,
    hash: &Hash256,
    argument: u32,
    position: u8,
    work: Work,
) -> Result<Played, NoMemory>
    requires fits { WorkFits setting.now ledger.now.entries work }
    requires stored { AreStored ledger.now.entries }
    requires held { AreOf ledger.now.entries programs.old }
    ensures held { AreOf ledger.now.entries programs.new }
    ensures stays { StayKept programs.old programs.new }
    ensures played { IfOk result (IsPlay ledger.now.entries (passing ledger.now.entries work)
        (callback_at setting.now ledger.now.next ledger.now.entries account.now hash.now argument position
        (passing ledger.now.entries work))) }
    ensures fits { IfOk result (PlayedFits setting.now ledger.now.entries) }
{
    match ledger.get(&Key::Install(*account, position)) {
        Some(
            Entry::Install {
                hash: installed,
                namespace,
                ..
            },
        ) => {
            if installed != hash {
                return Ok(Played::Idle(work));
            }
            let turn = Turn {
                account: *account,
                position,
                hash: *installed,
                namespace: *namespace,
                which: Export::Cbak,
                argument,
            };
            run_turn(alloc, programs, ledger, setting, &turn, work)
        }
        _ => Ok(Played::Idle(work)),
    }
}
