//! The rules for Payment, AccountSet and Invoke.
ghost use Rattle.std.specs.Prelude.{◌≡◌, ◌+◌, ◌<◌, ◌≤◌, ◌^◌, nat_lt, Some, IfOk, IsSome, MatchOption};
ghost use Rattle.hk_state.specs.Balances.{balances};
ghost use Rattle.hk_state.specs.Holdings.{holding_at};
ghost use Rattle.hk_base.specs.declared.ids.AccountId.{AccountId};
ghost use Rattle.hk_state.specs.Native.{native, payment, payment_rows, drops_of, received};
ghost use Rattle.hk_state.specs.NativeLaws.{native_sum, native_others, native_accounts, native_failures};
ghost use Rattle.hk_state.specs.Reserves.{reserve};
ghost use Rattle.hk_base.specs.Rows.{first_row};
ghost use Rattle.hk_state.specs.Rules.{Means};
ghost use Rattle.hk_state.specs.Writes.{with_writes};

use crate::{Done, Holding, Ledger, Overlay, Transactor, reserve};
use hk_base::{AccountId, NoMemory};
use hk_lines::ResultName;
use std::alloc::Global;
use xo_fields::Amount;
use xo_object::Transaction;

const PAYMENT: u16 = 0;

/// The least drops that open an account.
const BASE_RESERVE: u64 = 10_000_000;

/// The rules for Payments of drops, and for AccountSet and Invoke, which have no effect of their own.
pub struct Native;

// Whether a balance is below the drops and what is kept.
fn is_short(balance: u64, drops: u64, kept: u64) -> bool
    ensures short { result ≡ nat_lt balance (drops + kept) }
{
    balance < kept || balance - kept < drops
}

fn in_drops(amount: &Amount) -> u64
    ensures drops { result ≡ drops_of amount.now }
{
    match amount {
        Amount::Native(drops) => *drops,
        Amount::Issued { .. } => 0,
    }
}

// The first result of a Payment that applies, if one does.
fn refusal(
    transaction: &Transaction,
    to: &AccountId,
    amount: &Amount,
    sender: Holding,
    kept: u64,
    receiver: Option<Holding>,
) -> Option<ResultName>
    ensures rows { result ≡ first_row (payment_rows transaction.now to.now amount.now sender kept receiver) }
{
    let drops = in_drops(amount);
    if transaction.other_amounts || matches!(amount, Amount::Issued { .. }) {
        return Some(ResultName::Unsupported);
    }
    if *to == transaction.account {
        return Some(ResultName::Redundant);
    }
    if receiver.is_none() && drops < BASE_RESERVE {
        return Some(ResultName::NoDestination);
    }
    if is_short(sender.balance, drops, kept) {
        return Some(ResultName::Unfunded);
    }
    None
}

// The holding of an account to which drops come.
fn receive(receiver: Option<Holding>, drops: u64, seq: u32) -> Holding
    requires fits { MatchOption receiver (Unit {0}) (λ holding. holding.balance + drops < 2 ^ 64) }
    ensures received { result ≡ received drops seq receiver }
{
    match receiver {
        Some(holding) => Holding {
            balance: holding.balance + drops,
            sequence: holding.sequence,
        },
        None => Holding {
            balance: drops,
            sequence: seq,
        },
    }
}

// Pays drops to an account, unless a result of a Payment applies.
fn pay(
    ledger: &Ledger,
    overlay: Overlay,
    transaction: &Transaction,
    to: &AccountId,
    amount: &Amount,
    sender: Holding,
) -> Result<Done, NoMemory>
    requires sender { holding_at (with_writes ledger.now.entries overlay) transaction.now.account ≡ Some sender }
    requires sum { balances (with_writes ledger.now.entries overlay) ≤ 100000000000000000 }
    requires reserves { (id : AccountId) → reserve (with_writes ledger.now.entries overlay) id < 2 ^ 64 }
    ensures meaning { IfOk result (λ done.
        Means ledger.now.entries overlay done (payment ledger.now.header (with_writes ledger.now.entries overlay)
        transaction.now (Some to.now) (Some amount.now) (Some sender))) }
{
    let receiver = overlay.holding(ledger, to);
    let kept = reserve(ledger, &overlay, &transaction.account);
    if let Some(name) = refusal(transaction, to, amount, sender, kept, receiver) {
        return Ok(Done::Failed(name));
    }
    let drops = in_drops(amount);
    let mut overlay = overlay;
    let left = Holding {
        balance: sender.balance - drops,
        sequence: sender.sequence,
    };
    let received = receive(receiver, drops, ledger.header().seq);
    overlay.put_holding(&transaction.account, left)?;
    overlay.put_holding(to, received)?;
    Ok(Done::Kept(overlay))
}

impl Transactor for Native {
    ghost rules = { native };

    fn perform(
        &self,
        _alloc: Global,
        ledger: &Ledger,
        overlay: Overlay,
        transaction: &Transaction,
    ) -> Result<Done, NoMemory> {
        if transaction.kind != PAYMENT {
            return Ok(Done::Kept(overlay));
        }
        let sender = overlay.holding(ledger, &transaction.account);
        match (transaction.destination, transaction.amount, sender) {
            (Some(to), Some(amount), Some(sender)) => pay(
                ledger,
                overlay,
                transaction,
                &to,
                &amount,
                sender,
            ),
            _ => Ok(Done::Kept(overlay)),
        }
    }

    ghost keeps_sum = { native_sum };

    ghost keeps_others = { native_others };

    ghost keeps_accounts = { native_accounts };

    ghost names_failures = { native_failures };
}
