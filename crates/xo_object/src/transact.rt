//! Transactions of objects.
ghost use Rattle.std.specs.Prelude.{◌≡◌, ◌<◌, ◌||◌, ◌==◌, ◌↔◌, ℕ, List, Option, Err, IfOk, IfSome, IfNone, IsTrue};
ghost use Rattle.std.specs.Prelude.{is_some, Some, None};
ghost use Rattle.hk_base.specs.declared.ids.AccountId.{AccountId};
ghost use Rattle.xo_fields.specs.declared.amount.Amount.{Amount};
ghost use Rattle.xo_fields.specs.declared.amount.Amount.TheVariants.{Native};
ghost use Rattle.xo_object.specs.declared.transaction.HookItem.{HookItem};
ghost use Rattle.xo_object.specs.declared.transaction.Transaction.{Transaction};
ghost use Rattle.xo_list.specs.Item.{lookup};
ghost use Rattle.xo_object.specs.Names.{transaction_type, fee, hooks, emit_details};
ghost use Rattle.xo_list.specs.Span.{items};
ghost use Rattle.xo_object.specs.Transaction.{IsTransaction, CommonAre, PaidAre, IsAmountOf, IsPositive, PaymentIs};
ghost use Rattle.xo_object.specs.Transaction.{HooksAre, EmissionIs, DetailsAre, DetailsIn, number16};

use crate::hooks::{parameters_or_none, read_hooks};
use crate::lists::{copied, given_parameters};
use crate::names::{
    ACCOUNT, AMOUNT, DELIVER_MIN, DESTINATION, EMIT_BURDEN, EMIT_CALLBACK, EMIT_DETAILS,
    EMIT_GENERATION, EMIT_HOOK_HASH, EMIT_NONCE, EMIT_PARENT, FEE, FIRST_LEDGER_SEQUENCE, HOOKS,
    LAST_LEDGER_SEQUENCE, SEND_MAX, SEQUENCE, SIGNING_PUB_KEY, TRANSACTION_TYPE,
};
use crate::reading::{
    TransactionFault, account_at, amount_at, has_only, nested_object, number16_at, number32_at,
    number64_at,
};
use crate::transaction::{HookItem, Transaction};
use hk_base::{AccountId, Items, tx_id};
use std::alloc::Global;
use xo_fields::{Amount, FieldId, one_amount};
use xo_list::{Object, one_reading};

/// Payments.
const PAYMENT: u16 = 0;
/// Changes of hooks.
const SET_HOOK: u16 = 22;

/// The transaction of an object's fields, as it is sent or as a hook emits it.
///
/// It is malformed where one of its rules is broken: a known type; the fields that each transaction has, with a native
/// fee; a payment's destination and positive amount; a change of hooks' items; right parameters; and a sequence number
/// and details as emitted or not.
pub fn read_transaction(
    alloc: Global,
    object: &Object,
    emitted: bool,
) -> Result<Transaction, TransactionFault>
    ensures ok { IfOk result (λ transaction. IsTransaction (items object.now) object.now.bytes emitted transaction) }
    ensures malformed { result ≡ Err TransactionFault.Malformed → (transaction : Transaction) →
        IsTransaction (items object.now) object.now.bytes emitted transaction → ⊥ }
{
    let common = common_of(object)?;
    let paid = paid_of(object, common.kind)?;
    let emission = emission_of(alloc, object, emitted, common.sequence)?;
    let hooks = hooks_for(alloc, object, common.kind)?;
    let parameters = given_parameters(alloc, object)?;
    let blob = copied(alloc, object.bytes())?;
    Ok(Transaction {
        kind: common.kind,
        account: common.account,
        destination: paid.destination,
        sequence: common.sequence,
        fee: common.fee,
        first: number32_at(object, FIRST_LEDGER_SEQUENCE),
        last: number32_at(object, LAST_LEDGER_SEQUENCE),
        amount: paid.amount,
        parameters: parameters_or_none(alloc, parameters),
        hooks,
        other_amounts: has_either(object, SEND_MAX, DELIVER_MIN),
        generation: emission.generation,
        burden: emission.burden,
        blob,
        id: tx_id(object.bytes()),
    })
}

/// What each transaction has.
#[derive(Drop)]
struct Common {
    kind: u16,
    account: AccountId,
    sequence: u32,
    fee: u64,
}

fn common_of(object: &Object) -> Result<Common, TransactionFault>
    ensures ok { IfOk result
        (λ common. CommonAre (items object.now) common.kind common.account common.sequence common.fee) }
    ensures malformed { result ≡ Err TransactionFault.Malformed → (kind : ℕ) → (account : AccountId) → (sequence : ℕ) →
        (fee : ℕ) → CommonAre (items object.now) kind account sequence fee → ⊥ }
{
    let kind = match kind_of(object) {
        None => return Err(TransactionFault::Malformed),
        Some(kind) => kind,
    };
    let account = match account_at(object, ACCOUNT) {
        None => return Err(TransactionFault::Malformed),
        Some(account) => account,
    };
    let sequence = match number32_at(object, SEQUENCE) {
        None => return Err(TransactionFault::Malformed),
        Some(sequence) => sequence,
    };
    let fee = match fee_of(object) {
        None => return Err(TransactionFault::Malformed),
        Some(fee) => fee,
    };
    if let None = object.field(SIGNING_PUB_KEY) {
        return Err(TransactionFault::Malformed);
    }
    Ok(Common {
        kind,
        account,
        sequence,
        fee,
    })
}

/// Whom a transaction names, and which amount.
#[derive(Drop)]
struct Paid {
    destination: Option<AccountId>,
    amount: Option<Amount>,
}

fn paid_of(object: &Object, kind: u16) -> Result<Paid, TransactionFault>
    ensures ok { IfOk result (λ paid. PaidAre (items object.now) kind paid.destination paid.amount) }
    ensures malformed { result ≡ Err TransactionFault.Malformed → (destination : Option AccountId) →
        (amount : Option Amount) → PaidAre (items object.now) kind destination amount → ⊥ }
{
    one_amount();
    let destination = account_at(object, DESTINATION);
    let amount = amount_at(object, AMOUNT);
    if !is_payment(kind, &destination, &amount) {
        return Err(TransactionFault::Malformed);
    }
    Ok(Paid {
        destination,
        amount,
    })
}

/// The type of a transaction, if it is a known one.
fn kind_of(object: &Object) -> Option<u16>
    ensures some { IfSome result (λ kind. number16 transaction_type (items object.now) ≡ Some kind) }
    ensures known { IfSome result (λ kind. IsTrue (kind == 0 || kind == 3 || kind == 22 || kind == 99)) }
    ensures none { IfNone result
        ((kind : ℕ) → number16 transaction_type (items object.now) ≡ Some kind →
        IsTrue (kind == 0 || kind == 3 || kind == 22 || kind == 99) → ⊥) }
{
    match number16_at(object, TRANSACTION_TYPE) {
        None => None,
        Some(kind) => { if is_known(kind) { Some(kind) } else { None } }
    }
}

fn is_known(kind: u16) -> bool
    ensures known { result ≡ (kind == 0 || kind == 3 || kind == 22 || kind == 99) }
{
    kind == PAYMENT || kind == 3 || kind == SET_HOOK || kind == 99
}

/// The drops of a native fee.
fn fee_of(object: &Object) -> Option<u64>
    ensures some { IfSome result (λ drops. IsAmountOf (lookup fee (items object.now)) (Some (Native drops))) }
    ensures none { IfNone result ((drops : ℕ) → IsAmountOf (lookup fee (items object.now)) (Some (Native drops)) → ⊥) }
{
    one_amount();
    match amount_at(object, FEE) {
        None => None,
        Some(Amount::Native(drops)) => Some(drops),
        Some(
            Amount::Issued {
                value: _,
                currency: _,
                issuer: _,
            },
        ) => None,
    }
}

/// Whether what a payment must have is there.
fn is_payment(kind: u16, destination: &Option<AccountId>, amount: &Option<Amount>) -> bool
    ensures payment { IsTrue result ↔ PaymentIs kind destination.now amount.now }
{
    if kind != PAYMENT {
        return true;
    }
    match destination {
        None => false,
        Some(_) => match amount {
            None => false,
            Some(amount) => is_positive(amount),
        },
    }
}

fn is_positive(amount: &Amount) -> bool
    ensures positive { IsTrue result ↔ IsPositive amount.now }
{
    match amount {
        Amount::Native(drops) => *drops > 0,
        Amount::Issued {
            value,
            currency: _,
            issuer: _,
        } => *value >= 1 << 62,
    }
}

/// How many emissions led to a transaction, and what it costs for that.
#[derive(Drop)]
struct Emission {
    generation: u32,
    burden: u64,
}

fn emission_of(
    alloc: Global,
    object: &Object,
    emitted: bool,
    sequence: u32,
) -> Result<Emission, TransactionFault>
    ensures ok { IfOk result (λ emission.
        EmissionIs emitted (lookup emit_details (items object.now)) sequence emission.generation emission.burden) }
    ensures malformed { result ≡ Err TransactionFault.Malformed → (generation : ℕ) → (burden : ℕ) →
        EmissionIs emitted (lookup emit_details (items object.now)) sequence generation burden → ⊥ }
{
    match object.field(EMIT_DETAILS) {
        None => {
            if emitted {
                return Err(TransactionFault::Malformed);
            }
            if sequence == 0 {
                return Err(TransactionFault::Malformed);
            }
            if sequence == u32::MAX {
                return Err(TransactionFault::Malformed);
            }
            Ok(Emission {
                generation: 0,
                burden: 1,
            })
        }
        Some(details) => {
            if !emitted {
                return Err(TransactionFault::Malformed);
            }
            if sequence != 0 {
                return Err(TransactionFault::Malformed);
            }
            details_of(alloc, details)
        }
    }
}

fn details_of(alloc: Global, bytes: &[u8]) -> Result<Emission, TransactionFault>
    ensures ok { IfOk result (λ emission. DetailsAre bytes.now emission.generation emission.burden) }
    ensures malformed { result ≡ Err TransactionFault.Malformed → (generation : ℕ) → (burden : ℕ) →
        DetailsAre bytes.now generation burden → ⊥ }
{
    one_reading();
    let object = nested_object(alloc, bytes)?;
    details_in(&object)
}

fn details_in(object: &Object) -> Result<Emission, TransactionFault>
    ensures ok { IfOk result (λ emission. DetailsIn (items object.now) emission.generation emission.burden) }
    ensures malformed { result ≡ Err TransactionFault.Malformed → (generation : ℕ) → (burden : ℕ) →
        DetailsIn (items object.now) generation burden → ⊥ }
{
    if !has_only(
        object,
        &[
            EMIT_GENERATION,
            EMIT_BURDEN,
            EMIT_PARENT,
            EMIT_NONCE,
            EMIT_HOOK_HASH,
            EMIT_CALLBACK,
        ],
    ) {
        return Err(TransactionFault::Malformed);
    }
    let generation = match number32_at(object, EMIT_GENERATION) {
        None => return Err(TransactionFault::Malformed),
        Some(generation) => generation,
    };
    let burden = match number64_at(object, EMIT_BURDEN) {
        None => return Err(TransactionFault::Malformed),
        Some(burden) => burden,
    };
    if let None = object.field(EMIT_PARENT) {
        return Err(TransactionFault::Malformed);
    }
    if let None = object.field(EMIT_NONCE) {
        return Err(TransactionFault::Malformed);
    }
    if let None = object.field(EMIT_HOOK_HASH) {
        return Err(TransactionFault::Malformed);
    }
    Ok(Emission { generation, burden })
}

/// The items of a change of hooks, and none of another type.
fn hooks_for(alloc: Global, object: &Object, kind: u16) -> Result<Items<HookItem>, TransactionFault>
    ensures ok { IfOk result (λ found. HooksAre kind (lookup hooks (items object.now)) found) }
    ensures malformed { result ≡ Err TransactionFault.Malformed → (found : List HookItem) →
        HooksAre kind (lookup hooks (items object.now)) found → ⊥ }
{
    if kind != SET_HOOK {
        return Ok(Items::new(alloc));
    }
    match object.field(HOOKS) {
        None => Err(TransactionFault::Malformed),
        Some(bytes) => read_hooks(alloc, bytes),
    }
}

fn has_either(object: &Object, one: FieldId, other: FieldId) -> bool
    ensures either { result ≡ (is_some (lookup one (items object.now)) || is_some (lookup other (items object.now))) }
{
    has(object, one) || has(object, other)
}

fn has(object: &Object, field: FieldId) -> bool
    ensures has { result ≡ is_some (lookup field (items object.now)) }
{
    match object.field(field) {
        None => false,
        Some(_) => true,
    }
}
