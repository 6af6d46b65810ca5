//! Which blobs are emissions, and why others are not.
ghost use Rattle.std.specs.Prelude.{◌≡◌, ◌≤◌, length, IfOk, IfErr, IsTrue, IsFalse, ◌<◌, is_some};
ghost use Rattle.xo_list.specs.Item.{lookup};
ghost use Rattle.xo_list.specs.Span.{items};
ghost use Rattle.xo_list.specs.Value.{IsObject, HasFields};
ghost use Rattle.hk_reading.specs.Readings.{longest};
ghost use Rattle.hk_emit.specs.declared.fault.EmitFault.{EmitFault};
ghost use Rattle.hk_emit.specs.Accept.{has_number, is_last, callback_of, emission_of, IsLater, IsUnread, JudgesFields};
ghost use Rattle.hk_emit.specs.Accept.{Judges};
ghost use Rattle.hk_emit.specs.Accepted.{Accepts};

use crate::context::EmitContext;
use crate::emission::Emission;
use crate::emit_details::{has_value, nonce_of};
use crate::fault::EmitFault;
use crate::names::{SEQUENCE, SIGNING_PUB_KEY, TXN_SIGNATURE};
use hk_base::{AccountId, Hash256};
use std::alloc::Global;
use xo_fields::FieldId;
use xo_object::{
    Object, ObjectFault, Transaction, TransactionFault, one_reading, read_object, read_transaction,
};

/// The most bytes of a transaction.
const LONGEST: usize = 1_000_000;

/// The most emissions that lead to one.
const MOST_GENERATIONS: u32 = 10;

/// The most ledgers after the first that take an emission.
const LONGEST_WINDOW: u32 = 5;

/// The type that changes hooks.
const SET_HOOK: u16 = 22;

/// The emission that a blob is, for an execution with these nonces, which are drawn and not used.
pub fn accept_emission(
    alloc: Global,
    blob: &[u8],
    context: &EmitContext,
    nonces: &[Hash256],
) -> Result<Emission, EmitFault>
    ensures judged { Judges blob.now context.now nonces.now result }
    ensures accepted { Accepts blob.now context.now nonces.now result }
{
    judge(alloc, blob, context, nonces)
}

/// The emission that a blob is.
fn judge(
    alloc: Global,
    blob: &[u8],
    context: &EmitContext,
    nonces: &[Hash256],
) -> Result<Emission, EmitFault>
    ensures judged { Judges blob.now context.now nonces.now result }
{
    if is_too_long(blob) {
        return Err(EmitFault::TooLong);
    }
    let object = object_of(alloc, blob)?;
    emission_in(alloc, &object, context, nonces)
}

fn is_too_long(bytes: &[u8]) -> bool
    ensures long { IsTrue result → longest < length bytes.now }
    ensures short { IsFalse result → length bytes.now ≤ longest }
{
    bytes.len() > LONGEST
}

/// The object that a blob is.
fn object_of(alloc: Global, blob: &[u8]) -> Result<Object, EmitFault>
    ensures ok { IfOk result (λ object. IsObject (items object) blob.now) }
    ensures same { IfOk result (λ object. object.bytes ≡ blob.now) }
    ensures fault { IfErr result (λ fault. IsUnread blob.now fault) }
{
    one_reading();
    match read_object(alloc, blob) {
        Ok(object) => Ok(object),
        Err(fault) => match fault {
            ObjectFault::NoMemory => Err(EmitFault::NoMemory),
            _ => Err(EmitFault::Unparsed),
        },
    }
}

/// The emission that an object is.
fn emission_in(
    alloc: Global,
    object: &Object,
    context: &EmitContext,
    nonces: &[Hash256],
) -> Result<Emission, EmitFault>
    ensures judged { JudgesFields (items object.now) object.now.bytes context.now nonces.now result }
{
    if has_number(object) {
        return Err(EmitFault::SequenceNotZero);
    }
    let nonce = match nonce_of(object, context, nonces) {
        None => return Err(EmitFault::Details),
        Some(nonce) => *nonce,
    };
    match read_transaction(alloc, object, true) {
        Err(TransactionFault::NoMemory) => Err(EmitFault::NoMemory),
        Err(TransactionFault::Malformed) => Err(EmitFault::Malformed),
        Ok(transaction) => emission_of(object, context, nonce, transaction),
    }
}

/// Whether Sequence is there and isn't 0.
fn has_number(object: &Object) -> bool
    ensures number { result ≡ has_number (items object.now) }
{
    has(object, SEQUENCE) && !has_value(object, SEQUENCE, &[0; 4])
}

fn has(object: &Object, field: FieldId) -> bool
    ensures has { result ≡ is_some (lookup field (items object.now)) }
{
    match object.field(field) {
        None => false,
        Some(_) => true,
    }
}

/// The emission that a transaction is.
fn emission_of(
    object: &Object,
    context: &EmitContext,
    nonce: Hash256,
    transaction: Transaction,
) -> Result<Emission, EmitFault>
    ensures emission { result ≡ emission_of context.now (items object.now) nonce transaction }
    ensures later { IfErr result IsLater }
{
    if transaction.kind == SET_HOOK {
        return Err(EmitFault::BadKind);
    }
    if transaction.account != context.account {
        return Err(EmitFault::NotOwn);
    }
    if !has_value(object, SIGNING_PUB_KEY, &[0; 33]) {
        return Err(EmitFault::KeyNotZero);
    }
    if has(object, TXN_SIGNATURE) {
        return Err(EmitFault::Signed);
    }
    let first = transaction.first.ok_or(EmitFault::First)?;
    if first <= context.seq {
        return Err(EmitFault::First);
    }
    let last = transaction.last.ok_or(EmitFault::Last)?;
    if !is_last(first, last) {
        return Err(EmitFault::Last);
    }
    if transaction.generation > MOST_GENERATIONS {
        return Err(EmitFault::Generation);
    }
    Ok(Emission {
        transaction,
        nonce,
        hash: context.hash,
        first,
        last,
        callback: callback_of(context),
    })
}

/// Whether a window of ledgers ends there.
fn is_last(first: u32, last: u32) -> bool
    ensures last { result ≡ is_last first last }
{
    first <= last && last - first <= LONGEST_WINDOW
}

/// The account that is called back.
fn callback_of(context: &EmitContext) -> Option<AccountId>
    ensures callback { result ≡ callback_of context.now }
{
    if context.with_callback {
        Some(context.account)
    } else {
        None
    }
}
