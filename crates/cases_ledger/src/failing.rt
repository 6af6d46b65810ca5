//! Rules by which each transaction fails.
ghost use Rattle.std.specs.Prelude.{◌≡◌, true, refl};
ghost use Rattle.std.proofs.Common.{subst};
ghost use Rattle.hk_lines.specs.declared.result_name.ResultName.TheVariants.{Occupied};
ghost use Rattle.hk_state.specs.Rules.{is_failure, fails};

use hk_base::NoMemory;
use hk_lines::ResultName;
use hk_state::{Done, Ledger, Overlay, Transactor};
use std::alloc::Global;
use xo_object::Transaction;

/// Rules by which each transaction fails, and keeps fee and sequence alone.
pub struct Failing;

impl Transactor for Failing {
    ghost rules = { λ header m t. fails Occupied };

    fn perform(
        &self,
        _alloc: Global,
        _ledger: &Ledger,
        _overlay: Overlay,
        _transaction: &Transaction,
    ) -> Result<Done, NoMemory> {
        Ok(Done::Failed(ResultName::Occupied))
    }

    ghost keeps_sum = { λ header m n t e. cc };

    ghost keeps_others = { λ header m n t q e h. cc };

    ghost keeps_accounts = { λ header m n t id e is. cc };

    ghost names_failures = { λ header m t name e.
        let same : Occupied ≡ name = cc in subst (λ n. is_failure n ≡ true) same refl };
}
