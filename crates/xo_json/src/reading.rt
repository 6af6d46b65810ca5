//! Objects from their JSON texts.
ghost use Rattle.std.specs.Prelude.{◌≡◌, ◌≤◌, ◌++◌, ◌∷◌, [], ℕ, List, None, Some, Ok, Err, string_bytes};
ghost use Rattle.std.specs.Prelude.{MatchOption, MatchResult, IfOk, IfErr, OnOk, IsUtf8};
ghost use Rattle.serde_json.specs.Data.{Data, member, no_members};
ghost use Rattle.serde_json.specs.View.{view, items_view, members_view};
ghost use Rattle.xo_fields.specs.declared.form.Form.{Form};
ghost use Rattle.xo_fields.specs.Form.{form_at};
ghost use Rattle.xo_fields.specs.Header.{IsField};
ghost use Rattle.xo_list.specs.Item.{Item, lookup, spell, with_item};
ghost use Rattle.xo_list.specs.List.{IsFit, IsList};
ghost use Rattle.xo_list.specs.Span.{items};
ghost use Rattle.xo_showing.specs.Bytes.{AreBytes, HaveBytes};
ghost use Rattle.xo_showing.specs.Shows.{Shows};
ghost use Rattle.xo_told.specs.Faults.{ValueFails, MemberFails, MembersFail, ObjectFails, Refuses};
ghost use Rattle.xo_told.specs.Faults.{InnerFails, ElementFails, ItemsFail};
ghost use Rattle.xo_told.specs.Told.{told};
ghost use Rattle.xo_json.specs.Parts.{ReadsValue, ShowsFields, ShowsElements, ShowsRoot};
ghost use Rattle.xo_told.specs.Reading.{IsKey, ShowsValue, ShowsElement};

use crate::amount::read_money;
use crate::key::read_key;
use crate::plain::{read_account, read_blob, read_fixed};
use hk_base::NoMemory;
use serde_json::{Map, Value};
use std::alloc::{AllocError, Global};
use xo_fields::{FieldId, Form, write_header};
use xo_list::{Object, ObjectBuilder, PutFault};
use xo_told::JsonFault;

/// How many objects and arrays may be open at once.
const DEPTH: u8 = 10;
/// The end mark of a nested object.
const OBJECT_END: u8 = 0xe1;

/// The object that a text shows: what it reads as is the showing of the object's fields, up to the case of hex digits.
///
/// The fault is that of the first key, in the order of bytes, that fails.
pub fn read_json(alloc: Global, text: &[u8]) -> Result<Object, JsonFault>
    ensures utf8 { IfOk result (λ _. IsUtf8 text.now) }
    ensures shows { IfOk result (λ object. Shows text.now (items object)) }
    ensures bytes { IfOk result (λ object. HaveBytes (items object)) }
    ensures refuses { IfErr result (λ fault. Refuses text.now fault) }
    ensures told { IfOk result (λ object. told text.now ≡ Ok (items object)) }
    ensures told_fault { IfErr result (λ fault. (fault ≡ JsonFault.NoMemory → ⊥) → told text.now ≡ Err fault) }
    ensures complete { IfErr result (λ fault. (fault ≡ JsonFault.NoMemory → ⊥) → (fields : List Item)
        → IsUtf8 text.now → Shows text.now fields → IsList fields → HaveBytes fields → ⊥) }
{
    match Value::from_slice(alloc, text) {
        Err(error) => {
            if error.is_memory() {
                return Err(JsonFault::NoMemory);
            }
            Err(JsonFault::BadText)
        }
        Ok(value) => read_root(alloc, &value),
    }
}

/// The object that a value shows.
fn read_root(alloc: Global, value: &Value) -> Result<Object, JsonFault>
    ensures root { MatchResult result (λ object. ShowsRoot (view value.now) (items object))
        (λ fault. (fault ≡ JsonFault.NoMemory → ⊥)
        → ObjectFails (ValueFails 10) (ShowsValue 10) (view value.now) fault) }
{
    let Some(members) = value.as_object() else {
        return Err(JsonFault::BadValue);
    };
    read_members(alloc, members, DEPTH)
}

/// The bytes of a value that should be one of a form, where so many objects and arrays may be open in it.
#[cycle(nested)]
fn read_value(alloc: Global, form: Form, value: &Value, room: u8) -> Result<Vec<u8>, JsonFault>
    requires { room ≤ 10 }
    ensures value { ReadsValue room form (view value.now) result }
{
    match form {
        Form::Fixed(size) => read_fixed(alloc, size, value),
        Form::Money => read_money(alloc, value),
        Form::Blob => read_blob(alloc, value),
        Form::Account => read_account(alloc, value),
        Form::Object => read_object(alloc, value, room),
        Form::Array => read_array(alloc, value, room),
    }
}

/// The bytes of a value that should be an object.
#[cycle(nested)]
fn read_object(alloc: Global, value: &Value, room: u8) -> Result<Vec<u8>, JsonFault>
    requires { room ≤ 10 }
    ensures value { ReadsValue room Form.Object (view value.now) result }
{
    if room == 0 {
        return Err(JsonFault::TooDeep);
    }
    let Some(members) = value.as_object() else {
        return Err(JsonFault::BadValue);
    };
    match read_members(alloc, members, room - 1) {
        Err(fault) => Err(fault),
        Ok(object) => copied(alloc, object.bytes()),
    }
}

/// The bytes of a value that should be an array.
#[cycle(nested)]
fn read_array(alloc: Global, value: &Value, room: u8) -> Result<Vec<u8>, JsonFault>
    requires { room ≤ 10 }
    ensures value { ReadsValue room Form.Array (view value.now) result }
{
    if room == 0 {
        return Err(JsonFault::TooDeep);
    }
    let Some(elements) = value.as_array() else {
        return Err(JsonFault::BadValue);
    };
    read_elements(alloc, elements, room - 1)
}

/// A copy of the bytes.
fn copied(alloc: Global, bytes: &[u8]) -> Result<Vec<u8>, JsonFault>
    ensures ok { IfOk result (λ copy. copy.items ≡ bytes.now) }
    ensures bytes { IfOk result (λ copy. AreBytes copy.items) }
    ensures err { IfErr result (λ fault. fault ≡ JsonFault.NoMemory) }
{
    match Vec::from_slice(alloc, bytes) {
        Err(_) => Err(JsonFault::NoMemory),
        Ok(copy) => Ok(copy),
    }
}

/// The object of members that should be fields.
#[cycle(nested)]
fn read_members(alloc: Global, members: &Map<String, Value>, room: u8) -> Result<Object, JsonFault>
    requires { room ≤ 10 }
    ensures members { MatchResult result (λ object. ShowsFields room (members_view members.now.entries) (items object))
        (λ fault. (fault ≡ JsonFault.NoMemory → ⊥)
        → MembersFail (ValueFails room) (ShowsValue room) (members_view members.now.entries) fault) }
{
    let mut fields = ObjectBuilder::new(alloc);
    for (key, value) in members.iter() {
        match read_member(alloc, key.as_str(), value, room) {
            Err(fault) => return Err(fault),
            Ok((field, bytes)) => {
                if let Err(_) = put_new(&mut fields, field, bytes.as_slice()) {
                    return Err(JsonFault::NoMemory);
                }
            }
        }
    }
    match fields.finish() {
        Err(_) => Err(JsonFault::NoMemory),
        Ok(object) => Ok(object),
    }
}

/// Puts a field that wasn't put before, with a value that fits it.
fn put_new(fields: &mut ObjectBuilder, field: FieldId, value: &[u8]) -> Result<(), NoMemory>
    requires fit { IsFit field value.now }
    requires absent { lookup field fields.old ≡ None }
    ensures ok { OnOk result (fields.new ≡ with_item (record { field = field; value = value.now }) fields.old) }
{
    match fields.put(field, value) {
        Ok(()) => Ok(()),
        Err(PutFault::NoMemory) => Err(AllocError),
        Err(_) => unreachable!(),
    }
}

/// The field of a member, and the bytes of its value.
#[cycle(nested)]
fn read_member(
    alloc: Global,
    key: &str,
    value: &Value,
    room: u8,
) -> Result<(FieldId, Vec<u8>), JsonFault>
    requires { room ≤ 10 }
    ensures member { MatchResult result
        (λ found. (form : Form) × IsKey key.now found.0 form × ShowsValue room form (view value.now) found.1.items)
        (λ fault. (fault ≡ JsonFault.NoMemory → ⊥)
        → MemberFails (ValueFails room) key.now (view value.now) fault) }
{
    match read_key(alloc, key) {
        Err(_) => Err(JsonFault::NoMemory),
        Ok(None) => Err(JsonFault::BadKey),
        Ok(Some(keyed)) => match read_value(alloc, keyed.form, value, room) {
            Err(fault) => Err(fault),
            Ok(bytes) => Ok((keyed.field, bytes)),
        },
    }
}

/// The bytes of values that should be the elements of an array.
#[cycle(nested)]
fn read_elements(alloc: Global, values: &Vec<Value>, room: u8) -> Result<Vec<u8>, JsonFault>
    requires { room ≤ 10 }
    ensures elements { MatchResult result
        (λ bytes. (fields : List Item)
        × ShowsElements room (items_view values.now.items) fields × (bytes.items ≡ spell fields))
        (λ fault. (fault ≡ JsonFault.NoMemory → ⊥)
        → ItemsFail (ValueFails room) (ShowsValue room) (items_view values.now.items) fault) }
    ensures bytes { IfOk result (λ bytes. AreBytes bytes.items) }
{
    let mut bytes = Vec::new(alloc);
    for value in values {
        match read_element(alloc, value, room) {
            Err(fault) => return Err(fault),
            Ok((field, inner)) => {
                if let Err(_) = push_element(&mut bytes, field, inner.as_slice()) {
                    return Err(JsonFault::NoMemory);
                }
            }
        }
    }
    Ok(held(bytes))
}

/// The same bytes.
fn held(bytes: Vec<u8>) -> Vec<u8>
    ensures same { result.items ≡ bytes.items }
    ensures bytes { AreBytes result.items }
{
    are_bytes(bytes.as_slice());
    bytes
}

/// What is in a slice of bytes is a byte.
fn are_bytes(bytes: &[u8])
    ensures bytes { AreBytes bytes.now }
{}

/// The field of an element, and the bytes of its value.
#[cycle(nested)]
fn read_element(alloc: Global, value: &Value, room: u8) -> Result<(FieldId, Vec<u8>), JsonFault>
    requires { room ≤ 10 }
    ensures element { MatchResult result
        (λ found. ShowsElement (ShowsValue room) (view value.now) found.0 found.1.items)
        (λ fault. (fault ≡ JsonFault.NoMemory → ⊥) → ElementFails (ValueFails room) (view value.now) fault) }
{
    let Some(members) = value.as_object() else {
        return Err(JsonFault::BadValue);
    };
    let Some((key, inner)) = only_member(members) else {
        return Err(JsonFault::BadValue);
    };
    read_inner(alloc, key.as_str(), inner, room)
}

/// The member of an object that has one alone.
fn only_member<'a>(members: &'a Map<String, Value>) -> Option<(&'a String, &'a Value)>
    ensures only { MatchOption result
        ((key : List ℕ) (d : Data) → members_view members.now.entries ≡ member key d no_members → ⊥)
        (λ f. members_view members.now.entries ≡ member (string_bytes f.0.now) (view f.1.now) no_members) }
{
    let mut entries = members.iter();
    let Some((key, inner)) = entries.next() else {
        return None;
    };
    if let Some(_) = entries.next() {
        return None;
    }
    Some((key, inner))
}

/// The field of an element's one member, and the bytes of its value.
#[cycle(nested)]
fn read_inner(
    alloc: Global,
    key: &str,
    value: &Value,
    room: u8,
) -> Result<(FieldId, Vec<u8>), JsonFault>
    requires { room ≤ 10 }
    ensures inner { MatchResult result
        (λ found. IsKey key.now found.0 Form.Object × ShowsValue room Form.Object (view value.now) found.1.items)
        (λ fault. (fault ≡ JsonFault.NoMemory → ⊥)
        → InnerFails (ValueFails room) key.now (view value.now) fault) }
{
    match read_key(alloc, key) {
        Err(_) => Err(JsonFault::NoMemory),
        Ok(None) => Err(JsonFault::BadKey),
        Ok(Some(keyed)) => match keyed.form {
            Form::Object => match read_value(alloc, Form::Object, value, room) {
                Err(fault) => Err(fault),
                Ok(bytes) => Ok((keyed.field, bytes)),
            },
            _ => Err(JsonFault::BadKey),
        },
    }
}

/// Adds an element: its header, its fields and its end mark.
fn push_element(bytes: &mut Vec<u8>, field: FieldId, value: &[u8]) -> Result<(), NoMemory>
    requires field { IsField field }
    requires known { form_at field.kind ≡ Some Form.Object }
    ensures bytes { OnOk result
        (bytes.new.items ≡ bytes.old.items ++ spell (record { field = field; value = value.now } ∷ [])) }
{
    let (header, size) = write_header(field);
    bytes.extend_from_slice(&header[..size])?;
    bytes.extend_from_slice(value)?;
    bytes.push(OBJECT_END)?;
    Ok(())
}
