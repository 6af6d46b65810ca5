//! Row 63: the fee that an emission needs.
ghost use Rattle.std.specs.Prelude.{◌≡◌, ◌<◌, ◌*◌, ◌^◌, ok_or, IfOk, IfSome};
ghost use Rattle.xo_list.specs.Span.{items};
ghost use Rattle.hk_calls.specs.Answers.{ShowsUnless};
ghost use Rattle.hk_calls.specs.declared.code.Code.TheVariants as code;
ghost use Rattle.hk_reading.specs.Transactions.{transaction_of};
ghost use Rattle.hk_state.specs.Fees.{code_fee, needed_fee};
ghost use Rattle.hk_api.specs.Fee as rows;

use crate::Api;
use hk_api_parts::own_burden;
use hk_base::NoMemory;
use hk_calls::{Code, Pair, Refusal, read, refuse};
use hk_reading::{object_of, transactions_found};
use hk_state::needed_fee;
use std::alloc::{AllocError, Global};
use wa_num::Memory;
use xo_object::{Object, Transaction, TransactionFault, read_transaction};

/// The greatest fee that a call answers.
const GREATEST: u128 = (1 << 63) - 1;

/// The transaction that an object is as it is sent, or as a hook emits it.
fn transaction_of(
    alloc: Global,
    object: &Object,
    emitted: bool,
) -> Result<Option<Transaction>, NoMemory>
    ensures found { IfOk result (λ found. found ≡ transaction_of emitted (items object.now) object.now.bytes) }
    ensures code { IfOk result (λ found. IfSome found (λ t. code_fee t.hooks < 2 ^ 62)) }
{
    transactions_found();
    match read_transaction(alloc, object, emitted) {
        Ok(transaction) => Ok(Some(transaction)),
        Err(TransactionFault::NoMemory) => Err(AllocError),
        Err(TransactionFault::Malformed) => Ok(None),
    }
}

/// The transaction that bytes are, as it is sent or as a hook emits it.
fn transaction_in(alloc: Global, bytes: &[u8]) -> Result<Transaction, Refusal>
    ensures found { ShowsUnless (λ t. t) result (ok_or (rows.transaction_in bytes.now) code.InvalidTxn) }
    ensures code { IfOk result (λ t. code_fee t.hooks < 2 ^ 62) }
{
    let object = match object_of(alloc, bytes)? {
        None => return Err(Refusal::Code(Code::InvalidTxn)),
        Some(object) => object,
    };
    if let Some(sent) = transaction_of(alloc, &object, false)? {
        return Ok(sent);
    }
    match transaction_of(alloc, &object, true)? {
        None => Err(Refusal::Code(Code::InvalidTxn)),
        Some(emitted) => Ok(emitted),
    }
}

impl Api<'_> {
    /// The fee that a transaction needs, as often as the burden says.
    pub(crate) fn burdened(&self, transaction: &Transaction, burden: u64) -> u128
        requires code { code_fee transaction.now.hooks < 2 ^ 62 }
        ensures { result ≡ needed_fee self.now.before transaction.now * burden }
    {
        let needed = needed_fee(self.ledger, transaction);
        u128::from(needed) * u128::from(burden)
    }

    /// Row 63: the fee that a transaction would need as an emission.
    pub(crate) fn etxn_fee_base(&self, memory: &Memory, from: Pair) -> Result<i64, Refusal>
        ensures { ShowsUnless (λ n. n) result (rows.etxn_fee_base self.now memory.now from) }
    {
        let blob = read(memory, from)?;
        refuse(self.emitting.reserved == 0, Code::PrerequisiteNotMet)?;
        let transaction = transaction_in(self.alloc, blob)?;
        let burden = own_burden(self.setting, &self.emitting)?;
        let fee = self.burdened(&transaction, burden);
        refuse(fee > GREATEST, Code::FeeTooLarge)?;
        Ok(fee as i64)
    }
}
