//! The lines of the demo, each made where it is taken.
ghost use Rattle.std.specs.Prelude.{◌≡◌, ◌≤◌, IfOk, OnOk};
ghost use Rattle.hk_ledger.specs.Machine.{IsInRange};
ghost use Rattle.hk_demo.specs.DemoLines.{account_line, accounts, beginning, ledger_line, opened_before, payment_line};
ghost use Rattle.hk_demo.specs.DemoLines.{payments, set_hook_line};
ghost use Rattle.hk_demo.specs.Summary.{play, plays};

use crate::blobs::{account, payment, set_hook};
use crate::codes::{accept_code, rollback_code};
use crate::play::Play;
use hk_base::{Hash256, NoMemory};
use hk_lines::{InputLine, Verdict};
use std::alloc::Global;

const ACCOUNTS: u8 = 10;

/// The lines of ten accounts, of ledger 1 and of two hooks.
pub(crate) fn begin(alloc: Global, play: &mut Play) -> Result<(), NoMemory>
    ensures ok { OnOk result (play.new ≡ plays play.old beginning) }
{
    open_accounts(alloc, play)?;
    play.line(alloc, &ledger(1))?;
    let accepting = InputLine::Tx {
        verdict: Verdict::Good,
        blob: set_hook(alloc, 0, accept_code())?,
    };
    play.line(alloc, &accepting)?;
    let rolling_back = InputLine::Tx {
        verdict: Verdict::Good,
        blob: set_hook(alloc, 5, rollback_code())?,
    };
    play.line(alloc, &rolling_back)?;
    Ok(())
}

/// The lines of ten accounts.
fn open_accounts(alloc: Global, play: &mut Play) -> Result<(), NoMemory>
    ensures ok { OnOk result (play.new ≡ plays play.old (accounts 10)) }
{
    let mut k = 0;
    while k < ACCOUNTS {
        let line = InputLine::Account {
            id: account(k),
            balance: 1_000_000_000_000,
            sequence: 1,
        };
        play.line(alloc, &line)?;
        k += 1;
    }
    Ok(())
}

/// A line that opens a ledger.
fn ledger(seq: u32) -> InputLine
    ensures line { result ≡ ledger_line seq }
    ensures range { IsInRange result }
{
    InputLine::Ledger {
        seq,
        time: 0,
        last_hash: Hash256([0; 32]),
    }
}

/// The lines of Payments 1 to n.
pub(crate) fn pay(alloc: Global, play: &mut Play, n: u32) -> Result<(), NoMemory>
    requires most { n ≤ 100000 }
    ensures ok { OnOk result (play.new ≡ plays play.old (payments n)) }
{
    let mut paid = 0;
    while paid < n {
        open_before(alloc, play, paid + 1)?;
        play.line(alloc, &payment_of(alloc, paid + 1)?)?;
        paid += 1;
    }
    Ok(())
}

/// The line that opens a ledger before Payment i, where one stands there.
fn open_before(alloc: Global, play: &mut Play, i: u32) -> Result<(), NoMemory>
    requires most { i ≤ 100000 }
    ensures ok { OnOk result (play.new ≡ plays play.old (opened_before i)) }
{
    if i > 1 && i % 100 == 1 {
        play.line(alloc, &ledger(i / 100 + 1))?;
    }
    Ok(())
}

/// The line of Payment i.
fn payment_of(alloc: Global, i: u32) -> Result<InputLine, NoMemory>
    requires most { i ≤ 100000 }
    ensures line { IfOk result (λ line. line ≡ payment_line i) }
    ensures range { IfOk result (λ line. IsInRange line) }
{
    let from = i % 10;
    let sequence = i / 10 + if from == 5 { 2 } else { 1 };
    let drops = 7777 * i % 100_000 + 1;
    let to = (3 * i + 1) % 10;
    Ok(InputLine::Tx {
        verdict: Verdict::Good,
        blob: payment(alloc, sequence, drops, from as u8, to as u8)?,
    })
}
