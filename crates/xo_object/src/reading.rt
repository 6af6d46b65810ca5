//! Values of an object's fields, by their kinds.
ghost use Rattle.std.specs.Prelude.{◌≡◌, ◌≤◌, ◌<◌, ℕ, List, length, Err, Some, None, IfOk, IfSome, IfNone, IsTrue, All};
ghost use Rattle.std.specs.Option.{option_map};
ghost use Rattle.xo_fields.specs.declared.field.FieldId.{FieldId};
ghost use Rattle.xo_fields.specs.Form.{form_at};
ghost use Rattle.xo_list.specs.Item.{lookup};
ghost use Rattle.xo_list.specs.Span.{items, items_of, InRange};
ghost use Rattle.xo_list.specs.Value.{IsObject, IsArray, IsValue, HasFields, HasElements};
ghost use Rattle.xo_object.specs.Transaction.{number16, number32, number64, HasHash, HasAccount, IsAmountOf, only};
ghost use Rattle.xo_object.specs.Transaction.{is_among};

use hk_base::{AccountId, Hash256};
use std::alloc::Global;
use xo_fields::{Amount, AmountRead, FieldId, Form, one_amount, read_amount};
use xo_list::{Object, ObjectFault, Span, one_reading, read_elements, read_object};

/// Why fields are no transaction.
#[derive(Clone, Copy, Debug, PartialEq, Eq)]
pub enum TransactionFault {
    /// A field is missing, or one that is there is wrong.
    Malformed,
    /// There was no memory for the answer.
    NoMemory,
}

/// The value of a field whose kind is written in that form.
fn value_at<'a>(object: &'a Object, field: FieldId, form: Form) -> Option<&'a [u8]>
    requires { form_at field.kind ≡ Some form }
    ensures found { IfSome result (λ value. lookup field (items object.now) ≡ Some value.now) }
    ensures none { IfNone result (lookup field (items object.now) ≡ None) }
    ensures fits { IfSome result (λ value. IsValue 10 form value.now) }
{
    let _bytes = object.bytes();
    match object.field(field) {
        None => None,
        Some(value) => Some(value),
    }
}

/// The number of a field of kind UInt16.
pub fn number16_at(object: &Object, field: FieldId) -> Option<u16>
    requires { field.kind ≡ 1 }
    ensures number { number16 field (items object.now) ≡ result }
{
    match value_at(object, field, Form::Fixed(2)) {
        None => None,
        Some(value) => Some(u16::from_be_bytes([value[0], value[1]])),
    }
}

/// The number of a field of kind UInt32.
pub fn number32_at(object: &Object, field: FieldId) -> Option<u32>
    requires { field.kind ≡ 2 }
    ensures number { number32 field (items object.now) ≡ result }
{
    match value_at(object, field, Form::Fixed(4)) {
        None => None,
        Some(value) => Some(u32::from_be_bytes([value[0], value[1], value[2], value[3]])),
    }
}

/// The number of a field of kind UInt64.
pub fn number64_at(object: &Object, field: FieldId) -> Option<u64>
    requires { field.kind ≡ 3 }
    ensures number { number64 field (items object.now) ≡ result }
{
    match value_at(object, field, Form::Fixed(8)) {
        None => None,
        Some(value) => Some(u64::from_be_bytes([
            value[0], value[1], value[2], value[3], value[4], value[5], value[6], value[7],
        ])),
    }
}

/// The hash of a field of kind Hash256.
pub fn hash_at(object: &Object, field: FieldId) -> Option<Hash256>
    requires { field.kind ≡ 5 }
    ensures hash { HasHash field (items object.now) result }
{
    match value_at(object, field, Form::Fixed(32)) {
        None => None,
        Some(value) => {
            let mut hash = [0; 32];
            hash.copy_from_slice(value);
            Some(Hash256(hash))
        }
    }
}

/// The account of a field of kind AccountID.
pub fn account_at(object: &Object, field: FieldId) -> Option<AccountId>
    requires { field.kind ≡ 8 }
    ensures account { HasAccount field (items object.now) result }
{
    match value_at(object, field, Form::Account) {
        None => None,
        Some(value) => {
            let mut account = [0; 20];
            account.copy_from_slice(value);
            Some(AccountId(account))
        }
    }
}

/// The amount of a field of kind Amount.
pub fn amount_at(object: &Object, field: FieldId) -> Option<Amount>
    requires { field.kind ≡ 6 }
    ensures amount { IsAmountOf (lookup field (items object.now)) result }
{
    one_amount();
    match value_at(object, field, Form::Money) {
        None => None,
        Some(value) => match read_amount(value, 0) {
            AmountRead::Cut => None,
            AmountRead::Bad => None,
            AmountRead::Amount { amount, size: _ } => Some(amount),
        },
    }
}

/// Whether an object has no other fields than these.
pub fn has_only(object: &Object, allowed: &[FieldId]) -> bool
    ensures only { result ≡ only allowed.now (items object.now) }
{
    all_among(object.items(), allowed)
}

fn all_among(spans: &[(FieldId, Span)], allowed: &[FieldId]) -> bool
    ensures only { (bytes : List ℕ) → result ≡ only allowed.now (items_of bytes spans.now) }
{
    for (field, _) in spans {
        if !is_one_of(*field, allowed) {
            return false;
        }
    }
    true
}

fn is_one_of(field: FieldId, allowed: &[FieldId]) -> bool
    ensures among { result ≡ is_among field allowed.now }
{
    for other in allowed {
        if field.kind == other.kind && field.code == other.code {
            return true;
        }
    }
    false
}

/// What a transaction's fault is where a nested value has this one.
fn fault_of(fault: ObjectFault) -> TransactionFault
    ensures malformed { result ≡ TransactionFault.Malformed → fault ≡ ObjectFault.NoMemory → ⊥ }
{
    match fault {
        ObjectFault::Cut => TransactionFault::Malformed,
        ObjectFault::UnknownField => TransactionFault::Malformed,
        ObjectFault::OutOfOrder => TransactionFault::Malformed,
        ObjectFault::BadLength => TransactionFault::Malformed,
        ObjectFault::BadAmount => TransactionFault::Malformed,
        ObjectFault::TooDeep => TransactionFault::Malformed,
        ObjectFault::NoMemory => TransactionFault::NoMemory,
    }
}

/// A nested object's fields.
pub fn nested_object(alloc: Global, bytes: &[u8]) -> Result<Object, TransactionFault>
    ensures ok { IfOk result (λ object. IsObject (items object) bytes.now) }
    ensures malformed { result ≡ Err TransactionFault.Malformed → HasFields bytes.now → ⊥ }
{
    one_reading();
    match read_object(alloc, bytes) {
        Ok(object) => Ok(object),
        Err(fault) => Err(fault_of(fault)),
    }
}

/// A nested array's elements.
pub fn nested_array(alloc: Global, bytes: &[u8]) -> Result<Vec<(FieldId, Span)>, TransactionFault>
    ensures ok { IfOk result (λ spans. IsArray (items_of bytes.now spans.items) bytes.now) }
    ensures ranges { IfOk result (λ spans. All (InRange bytes.now) spans.items) }
    ensures malformed { result ≡ Err TransactionFault.Malformed → HasElements bytes.now → ⊥ }
{
    match read_elements(alloc, bytes) {
        Ok(spans) => Ok(spans),
        Err(fault) => Err(fault_of(fault)),
    }
}
