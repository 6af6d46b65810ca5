//! The fee that a transaction needs.
ghost use Rattle.std.specs.Prelude.{◌≡◌, ◌<◌, ◌^◌, Some};
ghost use Rattle.std.specs.Option.{option_copied};
ghost use Rattle.hk_state.specs.Fees.{needed_fee, chain_fee, destination_fee, code_fee, item_fee, bound_of};
ghost use Rattle.hk_state.specs.Fees.{fired_bound};

use crate::firing::fires;
use crate::installs::{install_at, next_install};
use crate::{Entry, Key, Ledger};
use hk_base::AccountId;
use xo_object::{HookItem, Transaction};

/// The drops that each transaction needs.
const BASE_FEE: u64 = 10;

/// The drops for each byte of new code.
const BYTE_FEE: u64 = 10;

/// How many hooks an account can have.
const POSITIONS: u8 = 10;

/// The fee that a transaction needs, in drops: 10, the bounds of the hooks of its account, and of its destination if
/// that is another, that fire on its type, and 10 for each byte of new code. It takes no memory.
pub fn needed_fee(ledger: &Ledger, transaction: &Transaction) -> u64
    requires fits { needed_fee ledger.now.entries transaction.now < 2 ^ 64 }
    ensures fee { result ≡ needed_fee ledger.now.entries transaction.now }
{
    let own = chain_fee(ledger, transaction.kind, &transaction.account);
    let other = destination_fee(ledger, transaction, &transaction.destination);
    BASE_FEE + own + other + code_fee(transaction.hooks.as_slice())
}

fn destination_fee(
    ledger: &Ledger,
    transaction: &Transaction,
    destination: &Option<AccountId>,
) -> u64
    requires fits { destination_fee ledger.now.entries transaction.now destination.now < 2 ^ 64 }
    ensures fee { result ≡ destination_fee ledger.now.entries transaction.now destination.now }
{
    match destination {
        None => 0,
        Some(to) => {
            if *to == transaction.account {
                0
            } else {
                chain_fee(ledger, transaction.kind, to)
            }
        }
    }
}

// The bounds of an account's hooks that fire on a type.
fn chain_fee(ledger: &Ledger, kind: u16, account: &AccountId) -> u64
    requires fits { chain_fee ledger.now.entries kind account.now < 2 ^ 64 }
    ensures fee { result ≡ chain_fee ledger.now.entries kind account.now }
{
    let mut fee = 0;
    let mut next = next_install(ledger, account, 0);
    for position in 0..POSITIONS {
        if next.is_none() {
            return fee;
        }
        fee += fired_bound(
            ledger,
            kind,
            install_at(ledger, account, position, &mut next),
        );
    }
    fee
}

fn fired_bound(ledger: &Ledger, kind: u16, entry: Option<&Entry>) -> u64
    ensures bound { result ≡ fired_bound ledger.now.entries kind (option_copied entry.entry) }
{
    match entry {
        Some(Entry::Install { hash, on, .. }) => {
            if fires(on, kind) {
                bound_of(ledger.get(&Key::Definition(*hash)))
            } else {
                0
            }
        }
        _ => 0,
    }
}

fn bound_of(entry: Option<&Entry>) -> u64
    ensures bound { result ≡ bound_of (option_copied entry.entry) }
{
    match entry {
        Some(Entry::Definition { bound_hook, .. }) => *bound_hook,
        _ => 0,
    }
}

fn code_fee(items: &[HookItem]) -> u64
    requires fits { code_fee items.now < 2 ^ 64 }
    ensures fee { result ≡ code_fee items.now }
{
    let mut fee = 0;
    for item in items {
        fee += item_fee(item);
    }
    fee
}

fn item_fee(item: &HookItem) -> u64
    requires fits { item_fee item.now < 2 ^ 64 }
    ensures fee { result ≡ item_fee item.now }
{
    match item {
        HookItem::Create { code, .. } => BYTE_FEE * code.len() as u64,
        _ => 0,
    }
}
