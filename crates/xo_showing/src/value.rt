//! How fields and their values show, nested ones in them.
ghost use Rattle.std.specs.Prelude.{◌≡◌, ℕ, List, All, Some, IfOk, OnOk, true, false, string_bytes};
ghost use Rattle.serde_json.specs.Data.{array, object, put};
ghost use Rattle.serde_json.specs.View.{view, members_view};
ghost use Rattle.xo_fields.specs.Form.{form_at};
ghost use Rattle.xo_list.specs.Fault.{is_array};
ghost use Rattle.xo_list.specs.Item.{Item};
ghost use Rattle.xo_list.specs.Span.{items_of};
ghost use Rattle.xo_list.specs.Value.{IsValue, Whole};
ghost use Rattle.hk_reading.specs.Parsing.{all_at, value_at};
ghost use Rattle.xo_showing.specs.Placed.{IsOf, IsOuter, IsPlaced};
ghost use Rattle.xo_showing.specs.Showing.{members, elements, fields_in, elements_in, shown, value_shown};

use crate::amount::{fixed_value, hex_value, money_value};
use crate::key::key_of;
use hk_base::NoMemory;
use serde_json::{Map, Value};
use std::alloc::{AllocError, Global};
use xo_fields::{FieldId, Form, form_of};
use xo_list::{ObjectFault, Place, Span, collect, one_reading};

/// The members that fields show as, where so many objects and arrays may be open in their values.
#[cycle(nested)]
pub(crate) fn members_of(
    alloc: Global,
    bytes: &[u8],
    spans: &[(FieldId, Span)],
    room: u8,
) -> Result<Map<String, Value>, NoMemory>
    requires placed { All (IsPlaced room bytes.now) spans.now }
    ensures members { IfOk result
        (λ map. members_view map.entries ≡ members (shown room) (items_of bytes.now spans.now)) }
{
    let mut members = Map::new(alloc);
    for at in (0..spans.len()).rev() {
        let (field, span) = spans[at];
        let key = key_of(alloc, field)?;
        let value = field_value(alloc, field, &bytes[span.from..span.to], room)?;
        insert(&mut members, key, value)?;
    }
    Ok(members)
}

/// Puts a member among others.
fn insert(members: &mut Map<String, Value>, key: String, value: Value) -> Result<(), NoMemory>
    ensures put { OnOk result (members_view members.new.entries
        ≡ put (string_bytes key) (view value) (members_view members.old.entries)) }
{
    drop(members.insert(key, value)?);
    Ok(())
}

/// The value of a field.
#[cycle(nested)]
fn field_value(alloc: Global, field: FieldId, bytes: &[u8], room: u8) -> Result<Value, NoMemory>
    requires { IsOf room field bytes.now }
    ensures value { IfOk result (λ value. view value ≡ value_shown (shown room) (form_at field.kind) bytes.now) }
{
    match form_of(field.kind) {
        None => Ok(Value::Null),
        Some(form) => form_value(alloc, form, bytes, room),
    }
}

/// A value of a form.
#[cycle(nested)]
fn form_value(alloc: Global, form: Form, bytes: &[u8], room: u8) -> Result<Value, NoMemory>
    requires { IsValue room form bytes.now }
    ensures value { IfOk result (λ value. view value ≡ shown room form bytes.now) }
{
    match form {
        Form::Fixed(size) => fixed_value(alloc, size, bytes),
        Form::Money => money_value(alloc, bytes),
        Form::Blob => hex_value(alloc, bytes),
        Form::Account => hex_value(alloc, bytes),
        Form::Object => object_value(alloc, bytes, room - 1),
        Form::Array => array_value(alloc, bytes, room - 1),
    }
}

/// An object's fields, where so many more may be open in their values.
#[cycle(nested)]
fn object_value(alloc: Global, bytes: &[u8], room: u8) -> Result<Value, NoMemory>
    requires { (fields : List Item) × Whole (IsValue room) false fields bytes.now }
    ensures value { IfOk result (λ value. view value ≡ object (members (shown room) (fields_in room bytes.now))) }
{
    let spans = spans_in(alloc, bytes, Place::Fields, room)?;
    let members = members_of(alloc, bytes, spans.as_slice(), room)?;
    Ok(Value::from(members))
}

/// An array's elements, where so many more may be open in their values.
#[cycle(nested)]
fn array_value(alloc: Global, bytes: &[u8], room: u8) -> Result<Value, NoMemory>
    requires { (fields : List Item) × Whole (IsValue room) true fields bytes.now }
    ensures value { IfOk result (λ value. view value ≡ array (elements (shown room) (elements_in room bytes.now))) }
{
    let spans = spans_in(alloc, bytes, Place::Elements, room)?;
    let mut list = Vec::new(alloc);
    for at in 0..spans.len() {
        let element = members_of(alloc, bytes, &spans[at..at + 1], room)?;
        list.push(Value::from(element))?;
    }
    Ok(Value::Array(list))
}

/// The spans of what stands in nested bytes.
fn spans_in(
    alloc: Global,
    bytes: &[u8],
    place: Place,
    room: u8,
) -> Result<Vec<(FieldId, Span)>, NoMemory>
    requires outer { IsOuter place }
    requires whole { (fields : List Item) × Whole (IsValue room) (is_array place) fields bytes.now }
    ensures items { IfOk result (λ spans.
        (all_at (value_at room) (is_array place) bytes.now).0 ≡ items_of bytes.now spans.items) }
    ensures placed { IfOk result (λ spans. All (IsPlaced room bytes.now) spans.items) }
{
    one_reading();
    match collect(alloc, bytes, place, room) {
        Ok(spans) => Ok(spans),
        Err(fault) => match fault {
            ObjectFault::NoMemory => Err(AllocError),
            _ => unreachable!(),
        },
    }
}
