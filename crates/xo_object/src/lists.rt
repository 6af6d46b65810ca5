//! Lists of parameters, grants and items in a transaction.
ghost use Rattle.std.specs.Prelude.{◌≡◌, ◌≤◌, ◌↔◌, [], List, Err, IfOk, IsTrue, All, Option, Some, unwrap_or};
ghost use Rattle.xo_object.specs.declared.transaction.Grant.{Grant};
ghost use Rattle.xo_object.specs.declared.transaction.Parameter.{Parameter};
ghost use Rattle.xo_list.specs.Item.{lookup};
ghost use Rattle.xo_object.specs.Names.{hook_parameter, hook_grant, hook_parameters, hook_grants};
ghost use Rattle.xo_list.specs.Span.{items, items_of, InRange};
ghost use Rattle.xo_list.specs.Value.{IsArray};
ghost use Rattle.xo_object.specs.Transaction.{IsElement, ParameterIs, GrantIs, AreParameters, AreGrants, Given};
ghost use Rattle.xo_object.specs.Transaction.{Differs};

use crate::names::{
    AUTHORIZE, HOOK_GRANTS, HOOK_HASH, HOOK_PARAMETERS, PARAMETER_NAME, PARAMETER_VALUE,
};
use crate::reading::{
    TransactionFault, account_at, has_only, hash_at, nested_array, nested_object,
};
use crate::transaction::{Grant, Parameter};
use hk_base::Items;
use std::alloc::Global;
use xo_fields::FieldId;
use xo_list::{Object, Span, one_reading};

/// The most parameters and grants of an item.
const MOST: usize = 16;
/// The longest name of a parameter.
const LONGEST_NAME: usize = 32;
/// The longest value of a parameter.
const LONGEST_VALUE: usize = 256;

/// The parameters that an object has, if it has a list of them.
pub fn given_parameters(
    alloc: Global,
    object: &Object,
) -> Result<Option<Items<Parameter>>, TransactionFault>
    ensures ok { IfOk result (λ given. Given AreParameters (lookup hook_parameters (items object.now)) given) }
    ensures malformed { result ≡ Err TransactionFault.Malformed → (given : Option (List Parameter)) →
        Given AreParameters (lookup hook_parameters (items object.now)) given → ⊥ }
{
    match object.field(HOOK_PARAMETERS) {
        None => Ok(None),
        Some(bytes) => match read_parameters(alloc, bytes) {
            Err(fault) => Err(fault),
            Ok(parameters) => Ok(Some(parameters)),
        },
    }
}

/// The grants that an object has, if it has a list of them.
pub fn given_grants(
    alloc: Global,
    object: &Object,
) -> Result<Option<Items<Grant>>, TransactionFault>
    ensures ok { IfOk result (λ given. Given AreGrants (lookup hook_grants (items object.now)) given) }
    ensures malformed { result ≡ Err TransactionFault.Malformed → (given : Option (List Grant)) →
        Given AreGrants (lookup hook_grants (items object.now)) given → ⊥ }
{
    match object.field(HOOK_GRANTS) {
        None => Ok(None),
        Some(bytes) => match read_grants(alloc, bytes) {
            Err(fault) => Err(fault),
            Ok(grants) => Ok(Some(grants)),
        },
    }
}

/// The parameters of an array's bytes.
fn read_parameters(alloc: Global, bytes: &[u8]) -> Result<Items<Parameter>, TransactionFault>
    ensures ok { IfOk result (λ parameters. AreParameters bytes.now parameters) }
    ensures malformed { result ≡ Err TransactionFault.Malformed → (parameters : List Parameter) →
        AreParameters bytes.now parameters → ⊥ }
{
    match nested_array(alloc, bytes) {
        Err(fault) => Err(fault),
        Ok(elements) => parameters_of(alloc, bytes, elements.as_slice()),
    }
}

/// The parameters of an array's elements.
fn parameters_of(
    alloc: Global,
    bytes: &[u8],
    elements: &[(FieldId, Span)],
) -> Result<Items<Parameter>, TransactionFault>
    requires array { IsArray (items_of bytes.now elements.now) bytes.now }
    requires ranges { All (InRange bytes.now) elements.now }
    ensures ok { IfOk result (λ parameters. AreParameters bytes.now parameters) }
    ensures malformed { result ≡ Err TransactionFault.Malformed → (parameters : List Parameter) →
        AreParameters bytes.now parameters → ⊥ }
{
    one_reading();
    if elements.len() > MOST {
        return Err(TransactionFault::Malformed);
    }
    let mut parameters = Items::new(alloc);
    for element in elements {
        let (field, span) = *element;
        match read_parameter(alloc, field, &bytes[span.from..span.to]) {
            Err(fault) => return Err(fault),
            Ok(parameter) => {
                if has_name(parameters.as_slice(), parameter.name.as_slice()) {
                    return Err(TransactionFault::Malformed);
                }
                if let Err(_) = parameters.push(parameter) {
                    return Err(TransactionFault::NoMemory);
                }
            }
        }
    }
    Ok(parameters)
}

/// The grants of an array's bytes.
fn read_grants(alloc: Global, bytes: &[u8]) -> Result<Items<Grant>, TransactionFault>
    ensures ok { IfOk result (λ grants. AreGrants bytes.now grants) }
    ensures malformed { result ≡ Err TransactionFault.Malformed → (grants : List Grant) → AreGrants bytes.now grants →
        ⊥ }
{
    match nested_array(alloc, bytes) {
        Err(fault) => Err(fault),
        Ok(elements) => grants_of(alloc, bytes, elements.as_slice()),
    }
}

/// The grants of an array's elements.
fn grants_of(
    alloc: Global,
    bytes: &[u8],
    elements: &[(FieldId, Span)],
) -> Result<Items<Grant>, TransactionFault>
    requires array { IsArray (items_of bytes.now elements.now) bytes.now }
    requires ranges { All (InRange bytes.now) elements.now }
    ensures ok { IfOk result (λ grants. AreGrants bytes.now grants) }
    ensures malformed { result ≡ Err TransactionFault.Malformed → (grants : List Grant) → AreGrants bytes.now grants →
        ⊥ }
{
    one_reading();
    if elements.len() > MOST {
        return Err(TransactionFault::Malformed);
    }
    let mut grants = Items::new(alloc);
    for element in elements {
        let (field, span) = *element;
        match read_grant(alloc, field, &bytes[span.from..span.to]) {
            Err(fault) => return Err(fault),
            Ok(grant) => {
                if let Err(_) = grants.push(grant) {
                    return Err(TransactionFault::NoMemory);
                }
            }
        }
    }
    Ok(grants)
}

/// The parameter of an element.
fn read_parameter(
    alloc: Global,
    field: FieldId,
    bytes: &[u8],
) -> Result<Parameter, TransactionFault>
    ensures ok { IfOk result
        (λ parameter. IsElement hook_parameter ParameterIs (record { field = field; value = bytes.now }) parameter) }
    ensures malformed { result ≡ Err TransactionFault.Malformed → (parameter : Parameter) →
        IsElement hook_parameter ParameterIs (record { field = field; value = bytes.now }) parameter → ⊥ }
{
    one_reading();
    if field.kind != 14 {
        return Err(TransactionFault::Malformed);
    }
    if field.code != 23 {
        return Err(TransactionFault::Malformed);
    }
    let object = nested_object(alloc, bytes)?;
    parameter_of(alloc, &object)
}

/// The grant of an element.
fn read_grant(alloc: Global, field: FieldId, bytes: &[u8]) -> Result<Grant, TransactionFault>
    ensures ok { IfOk result
        (λ grant. IsElement hook_grant GrantIs (record { field = field; value = bytes.now }) grant) }
    ensures malformed { result ≡ Err TransactionFault.Malformed → (grant : Grant) →
        IsElement hook_grant GrantIs (record { field = field; value = bytes.now }) grant → ⊥ }
{
    one_reading();
    if field.kind != 14 {
        return Err(TransactionFault::Malformed);
    }
    if field.code != 24 {
        return Err(TransactionFault::Malformed);
    }
    let object = nested_object(alloc, bytes)?;
    grant_of(&object)
}

/// The parameter of an object's fields.
fn parameter_of(alloc: Global, object: &Object) -> Result<Parameter, TransactionFault>
    ensures ok { IfOk result (λ parameter. ParameterIs (items object.now) parameter) }
    ensures malformed { result ≡ Err TransactionFault.Malformed → (parameter : Parameter) →
        ParameterIs (items object.now) parameter → ⊥ }
{
    if !has_only(object, &[PARAMETER_NAME, PARAMETER_VALUE]) {
        return Err(TransactionFault::Malformed);
    }
    let name = match object.field(PARAMETER_NAME) {
        None => return Err(TransactionFault::Malformed),
        Some(name) => name,
    };
    if name.len() < 1 {
        return Err(TransactionFault::Malformed);
    }
    if name.len() > LONGEST_NAME {
        return Err(TransactionFault::Malformed);
    }
    let value = value_or_empty(object, PARAMETER_VALUE);
    if value.len() > LONGEST_VALUE {
        return Err(TransactionFault::Malformed);
    }
    let name = copied(alloc, name)?;
    let value = copied(alloc, value)?;
    Ok(Parameter { name, value })
}

/// The grant of an object's fields.
fn grant_of(object: &Object) -> Result<Grant, TransactionFault>
    ensures ok { IfOk result (λ grant. GrantIs (items object.now) grant) }
    ensures malformed { result ≡ Err TransactionFault.Malformed → (grant : Grant) → GrantIs (items object.now) grant →
        ⊥ }
{
    if !has_only(object, &[HOOK_HASH, AUTHORIZE]) {
        return Err(TransactionFault::Malformed);
    }
    match hash_at(object, HOOK_HASH) {
        None => Err(TransactionFault::Malformed),
        Some(hash) => Ok(Grant {
            hash,
            account: account_at(object, AUTHORIZE),
        }),
    }
}

/// The value of a field, or no bytes where it isn't there.
fn value_or_empty<'a>(object: &'a Object, field: FieldId) -> &'a [u8]
    ensures value { result.now ≡ unwrap_or (lookup field (items object.now)) [] }
{
    match object.field(field) {
        None => &[],
        Some(value) => value,
    }
}

/// An own copy of bytes.
pub fn copied(alloc: Global, bytes: &[u8]) -> Result<Items<u8>, TransactionFault>
    ensures ok { IfOk result (λ own. own ≡ bytes.now) }
    ensures memory { result ≡ Err TransactionFault.Malformed → ⊥ }
{
    match Vec::from_slice(alloc, bytes) {
        Err(_) => Err(TransactionFault::NoMemory),
        Ok(own) => Ok(Items::from_vec(own)),
    }
}

/// Whether a parameter has this name.
fn has_name(parameters: &[Parameter], name: &[u8]) -> bool
    ensures found { IsTrue result → Differs name.now parameters.now → ⊥ }
    ensures absent { (IsTrue result → ⊥) → Differs name.now parameters.now }
{
    for parameter in parameters {
        if same_bytes(name, parameter.name.as_slice()) {
            return true;
        }
    }
    false
}

fn same_bytes(one: &[u8], other: &[u8]) -> bool
    ensures same { IsTrue result ↔ (one.now ≡ other.now) }
{
    one == other
}
