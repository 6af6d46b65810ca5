//! What an emission reads as.
ghost use Rattle.std.specs.Prelude.{◌≡◌, IfOk};
ghost use Rattle.hk_settle.specs.Waits.{read_as};

use hk_base::NoMemory;
use hk_reading::{object_of, transactions_found};
use std::alloc::{AllocError, Global};
use xo_object::{Transaction, TransactionFault, read_transaction};

/// The transaction that bytes are as a hook emits it, if they are one. Longer bytes than a transaction has aren't told
/// apart.
pub(crate) fn read_emitted(alloc: Global, bytes: &[u8]) -> Result<Option<Transaction>, NoMemory>
    ensures found { IfOk result (λ found. found ≡ read_as bytes.now) }
{
    transactions_found();
    let Some(object) = object_of(alloc, bytes)? else {
        return Ok(None);
    };
    match read_transaction(alloc, &object, true) {
        Ok(transaction) => Ok(Some(transaction)),
        Err(TransactionFault::NoMemory) => Err(AllocError),
        Err(TransactionFault::Malformed) => Ok(None),
    }
}
