//! A change of hooks, item by item.
ghost use Rattle.std.specs.Prelude.{◌≡◌, ◌≤◌, ◌<◌, ◌^◌, IfOk};
ghost use Rattle.hk_state.specs.Reserves.{reserve};
ghost use Rattle.hk_state.specs.Writes.{with_writes};
ghost use Rattle.hk_events.specs.Engine.{Engine};
ghost use Rattle.hk_events.specs.Items.{item_end, items_end, hooks_end, is_short};
ghost use Rattle.hk_items.specs.Checks.{checked_in};
ghost use Rattle.hk_items.specs.Endings.{Performs, plain};
ghost use Rattle.hk_items.specs.Needs.{AreRight, IsKnown};

use crate::creating::create;
use crate::installing::{Terms, install, update};
use crate::namespaces::empty;
use crate::place::{Place, cut_hook};
use hk_base::{AccountId, NoMemory};
use hk_lines::ResultName;
use hk_state::{Done, Ledger, Overlay, reserve};
use std::alloc::Global;
use xo_object::HookItem;

/// Performs the items of a change of hooks of an account, in order, each at its position and on what the earlier ones
/// left, on the ledger with the overlay's writes.
///
/// They are kept where each of them succeeds and the account's balance then covers its reserve; else the answer is the
/// result of the first that fails, or `Reserve`.
pub fn set_hooks(
    alloc: Global,
    ledger: &Ledger,
    overlay: Overlay,
    account: &AccountId,
    items: &[HookItem],
) -> Result<Done, NoMemory>
    requires right { AreRight items.now }
    requires reserve { reserve (with_writes ledger.now.entries overlay) account.now ≤ 100000000000000000 }
    ensures end { IfOk result (λ done. (e : Engine) → e.checks ≡ checked_in → e.reserve ≡ reserve →
        Performs ledger.now.entries overlay done (hooks_end e account.now items.now)) }
{
    match perform_all(alloc, ledger, overlay, account, items)? {
        Done::Failed(name) => Ok(Done::Failed(name)),
        Done::Kept(after) => {
            if is_short(ledger, &after, account) {
                Ok(Done::Failed(ResultName::Reserve))
            } else {
                Ok(Done::Kept(after))
            }
        }
    }
}

// All items, without the reserve.
fn perform_all(
    alloc: Global,
    ledger: &Ledger,
    overlay: Overlay,
    account: &AccountId,
    items: &[HookItem],
) -> Result<Done, NoMemory>
    requires right { AreRight items.now }
    ensures end { IfOk result (λ done. Performs ledger.now.entries overlay done
        (items_end plain account.now 0 items.now)) }
{
    let mut after = overlay;
    let mut position = 0;
    for item in items {
        let place = Place {
            owner: *account,
            position,
        };
        match perform(alloc, ledger, after, place, item)? {
            Done::Failed(name) => return Ok(Done::Failed(name)),
            Done::Kept(kept) => after = kept,
        }
        position += 1;
    }
    Ok(Done::Kept(after))
}

// One item, at its place.
fn perform(
    alloc: Global,
    ledger: &Ledger,
    overlay: Overlay,
    place: Place,
    item: &HookItem,
) -> Result<Done, NoMemory>
    requires known { IsKnown item.now }
    ensures end { IfOk result (λ done. Performs ledger.now.entries overlay done
        (item_end plain place.owner place.position item.now)) }
{
    match item {
        HookItem::Noop => Ok(Done::Kept(overlay)),
        HookItem::DeleteNamespace(namespace) => {
            let after = empty(ledger, overlay, &place.owner, namespace)?;
            Ok(Done::Kept(after))
        }
        HookItem::Delete => {
            let after = cut_hook(overlay, place)?;
            Ok(Done::Kept(after))
        }
        HookItem::Create {
            code,
            version,
            on,
            namespace,
            parameters,
            grants,
            replace,
        } => {
            let terms = Terms {
                on: *on,
                namespace: *namespace,
                parameters,
                grants,
                replace: *replace,
            };
            create(alloc, ledger, overlay, place, code, *version, terms)
        }
        HookItem::Install {
            hash,
            on,
            namespace,
            parameters,
            grants,
            replace,
        } => {
            let terms = Terms {
                on: *on,
                namespace: *namespace,
                parameters,
                grants,
                replace: *replace,
            };
            install(ledger, overlay, place, *hash, terms)
        }
        HookItem::Update {
            on,
            namespace,
            parameters,
            grants,
        } => update(ledger, overlay, place, *on, *namespace, parameters, grants),
    }
}

// Whether the account's balance is below its reserve.
fn is_short(ledger: &Ledger, overlay: &Overlay, account: &AccountId) -> bool
    requires fits { reserve (with_writes ledger.now.entries overlay.now) account.now < 2 ^ 64 }
    ensures short { result ≡ is_short plain account.now (with_writes ledger.now.entries overlay.now) }
{
    let balance = match overlay.holding(ledger, account) {
        Some(holding) => holding.balance,
        None => 0,
    };
    balance < reserve(ledger, overlay, account)
}
