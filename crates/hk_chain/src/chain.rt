//! The hooks of an account, one after the other.
ghost use Rattle.std.specs.Prelude.{◌≡◌, ◌+◌, ◌<◌, IfOk};
ghost use Rattle.hk_draft.specs.Drafted.{draft_of};
ghost use Rattle.hk_api.specs.Fits.{IsFit};
ghost use Rattle.hk_state.specs.Installs.{IsNext};
ghost use Rattle.hk_state.specs.Writes.{with_writes};
ghost use Rattle.hk_chain.specs.Chain.{chain_of, hook_line, is_accepted, play_at};
ghost use Rattle.hk_chain.specs.Meets.{EndMeans, IsPlay, PlayedFits, WorkFits, passing};
ghost use Rattle.hk_chain.specs.Programs.{AreOf, AreStored, StayKept};
ghost use Rattle.hk_chain.specs.declared.ending.ChainEnd.TheVariants.{Kept};

use crate::ending::ChainEnd;
use crate::programs::Programs;
use crate::turn::{Turn, run_turn};
use crate::work::{HookRun, Played, Work, no_chain};
use hk_api::Setting;
use hk_api_parts::is_skipped;
use hk_base::{AccountId, Items, NoMemory, Outcome};
use hk_bound::Export;
use hk_emit::Emission;
use hk_lines::OutputLine;
use hk_state::{Entry, Ledger, Overlay, fires, install_at, next_install};
use std::alloc::Global;

/// The positions of an account's hooks.
pub(crate) const POSITIONS: u8 = 10;

/// Runs the hooks of an account that fire on the transaction, from position 0 on, over the ledger with the overlay's
/// writes and behind these emissions.
///
/// # Errors
///
/// `NoMemory`; what was kept of programs stays good.
pub fn run_chain(
    alloc: Global,
    programs: &mut Programs,
    ledger: &Ledger,
    overlay: Overlay,
    emissions: Items<Emission>,
    setting: &Setting,
    account: &AccountId,
) -> Result<ChainEnd, NoMemory>
    requires fits { IsFit setting.now ledger.now.entries (with_writes ledger.now.entries overlay) }
    requires stored { AreStored ledger.now.entries }
    requires held { AreOf ledger.now.entries programs.old }
    ensures held { AreOf ledger.now.entries programs.new }
    ensures stays { StayKept programs.old programs.new }
    ensures chain { IfOk result (EndMeans ledger.now.entries
        (chain_of setting.now ledger.now.next ledger.now.entries account.now
        (draft_of ledger.now.entries overlay emissions))) }
{
    let mut work = Work {
        overlay,
        emissions,
        chain: no_chain(alloc),
    };
    let mut records = Items::new(alloc);
    let mut installed = next_install(ledger, account, 0);
    for position in 0..POSITIONS {
        if installed.is_none() {
            let end = kept(work, records);
            return Ok(end);
        }
        match play(
            alloc,
            programs,
            ledger,
            setting,
            account,
            position,
            &mut installed,
            work,
        )? {
            Played::Idle(next) => work = next,
            Played::Ran(next, run) => {
                let accepted = is_accepted(&run.outcome);
                records.push(hook_line(account, position, run))?;
                if !accepted {
                    return Ok(ChainEnd::Rejected { records });
                }
                work = next;
            }
        }
    }
    Ok(kept(work, records))
}

fn kept(work: Work, records: Items<OutputLine>) -> ChainEnd
    ensures kept { result ≡ Kept work.overlay work.emissions records }
{
    let Work {
        overlay,
        emissions,
        ..
    } = work;
    ChainEnd::Kept {
        overlay,
        emissions,
        records,
    }
}

/// The turn of a position, by where the next hook stands.
#[tactic(auto, unfolding(crate::specs::Chain::play_at))]
fn play(
    alloc: Global,
    programs: &mut Programs,
    ledger: &Ledger,
    setting: &Setting,
    account: &AccountId,
    position: u8,
    next: &mut Option<u8>,
    work: Work,
) -> Result<Played, NoMemory>
    requires position { position < 255 }
    requires next { IsNext ledger.now.entries account.now position next.old }
    requires fits { WorkFits setting.now ledger.now.entries work }
    requires stored { AreStored ledger.now.entries }
    requires held { AreOf ledger.now.entries programs.old }
    ensures held { AreOf ledger.now.entries programs.new }
    ensures stays { StayKept programs.old programs.new }
    ensures next { IsNext ledger.now.entries account.now (position + 1) next.new }
    ensures played { IfOk result (IsPlay ledger.now.entries (passing ledger.now.entries work)
        (play_at setting.now ledger.now.next ledger.now.entries account.now position
        (passing ledger.now.entries work))) }
    ensures fits { IfOk result (PlayedFits setting.now ledger.now.entries) }
{
    match install_at(ledger, account, position, next) {
        Some(
            Entry::Install {
                hash,
                on,
                namespace,
                ..
            },
        ) => {
            if !fires(on, setting.transaction.kind) {
                return Ok(Played::Idle(work));
            }
            if is_skipped(work.chain.skipped.as_slice(), hash) {
                return Ok(Played::Idle(work));
            }
            let turn = Turn {
                account: *account,
                position,
                hash: *hash,
                namespace: *namespace,
                which: Export::Hook,
                argument: 0,
            };
            run_turn(alloc, programs, ledger, setting, &turn, work)
        }
        _ => Ok(Played::Idle(work)),
    }
}

pub(crate) fn is_accepted(outcome: &Outcome) -> bool
    ensures accepted { result ≡ is_accepted outcome.now }
{
    matches!(outcome, Outcome::Accepted { .. })
}

fn hook_line(account: &AccountId, position: u8, run: HookRun) -> OutputLine
    ensures line { result ≡ hook_line account.now position run }
{
    OutputLine::Hook {
        account: *account,
        position,
        outcome: run.outcome,
        count: run.count,
        bound: run.bound,
    }
}
