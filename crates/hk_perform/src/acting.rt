//! What a transaction does itself.
ghost use Rattle.std.specs.Prelude.{◌≡◌, IfOk, IsSome};
ghost use Rattle.hk_state.specs.Holdings.{holding_at};
ghost use Rattle.hk_state.specs.Writes.{with_writes};
ghost use Rattle.hk_items.specs.Endings.{Performs};
ghost use Rattle.hk_engine.specs.Engine.{engine_of};
ghost use Rattle.hk_perform.specs.Acts.{acts};
ghost use Rattle.hk_perform.specs.Needs.{AreCovered, IsOfBytes};

use hk_base::NoMemory;
use hk_items::set_hooks;
use hk_state::{Done, Ledger, Overlay, Transactor};
use std::alloc::Global;
use xo_object::Transaction;

/// The type that changes hooks.
const SET_HOOK: u16 = 22;

/// What a transaction does itself, on the ledger with the overlay's writes: a change of hooks, or the rules of its
/// type.
pub(crate) fn act<T: Transactor>(
    alloc: Global,
    ledger: &Ledger,
    rules: &T,
    overlay: Overlay,
    transaction: &Transaction,
) -> Result<Done, NoMemory>
    requires read { IsOfBytes transaction.now }
    requires covered { AreCovered (with_writes ledger.now.entries overlay) }
    requires sender { IsSome (holding_at (with_writes ledger.now.entries overlay) transaction.now.account) }
    ensures acts { IfOk result (λ done. Performs ledger.now.entries overlay done
        (acts (engine_of T.rules) ledger.now.header transaction.now)) }
{
    if transaction.kind == SET_HOOK {
        let items = transaction.hooks.as_slice();
        return set_hooks(alloc, ledger, overlay, &transaction.account, items);
    }
    rules.perform(alloc, ledger, overlay, transaction)
}
