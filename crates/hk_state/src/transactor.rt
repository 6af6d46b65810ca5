//! The rules for transactions, which the ledger takes as a parameter.
ghost use Rattle.std.specs.Prelude.{◌≤◌, ◌<◌, ◌^◌, IfOk, IsSome};
ghost use Rattle.hk_base.specs.declared.ids.AccountId.{AccountId};
ghost use Rattle.hk_state.specs.Balances.{balances};
ghost use Rattle.hk_state.specs.Holdings.{holding_at};
ghost use Rattle.hk_state.specs.Reserves.{reserve};
ghost use Rattle.hk_state.specs.Rules.{Rules, IsOfItsBytes, Means, KeepsSum, KeepsOthers, KeepsAccounts, NamesFailures};
ghost use Rattle.hk_state.specs.Writes.{with_writes};

use crate::{Ledger, Overlay};
use hk_base::NoMemory;
use hk_lines::ResultName;
use std::alloc::Global;
use xo_object::Transaction;

/// How a transaction ends by its own rules.
#[derive(Drop)]
pub enum Done {
    /// With all writes so far, and its own.
    Kept(Overlay),
    /// With nothing of its own.
    Failed(ResultName),
}

/// Rules for transactions. What they mean is a function of the header, the entries and the transaction.
///
/// They keep the sum of all balances, each account, and each entry but accounts and those of kind `Other`.
pub trait Transactor {
    ghost rules: { Rules };

    /// Performs a transaction of an account on the ledger with the overlay's writes. The kept overlay lists the State
    /// keys that were listed before, in their order.
    fn perform(
        &self,
        alloc: Global,
        ledger: &Ledger,
        overlay: Overlay,
        transaction: &Transaction,
    ) -> Result<Done, NoMemory>
        requires bytes { IsOfItsBytes transaction.now }
        requires sender { IsSome (holding_at (with_writes ledger.now.entries overlay) transaction.now.account) }
        requires sum { balances (with_writes ledger.now.entries overlay) ≤ 100000000000000000 }
        requires reserves { (id : AccountId) → reserve (with_writes ledger.now.entries overlay) id < 2 ^ 64 }
        ensures meaning { IfOk result (λ done.
            Means ledger.now.entries overlay done
            (rules ledger.now.header (with_writes ledger.now.entries overlay) transaction.now)) };

    ghost keeps_sum: { KeepsSum rules };

    ghost keeps_others: { KeepsOthers rules };

    ghost keeps_accounts: { KeepsAccounts rules };

    ghost names_failures: { NamesFailures rules };
}
