ghost use Rattle.std.specs.Prelude.{◌≡◌, ◌<◌, ◌≤◌, ◌∷◌, ◌++◌, ◌↔◌, [], length, take, drop, Err, Some, None, IsTrue};
ghost use Rattle.std.specs.Prelude.{IsSome, IfOk, OnOk, OnErr};
ghost use Rattle.xo_fields.specs.Amount.{IsAmount};
ghost use Rattle.xo_fields.specs.Field.{number};
ghost use Rattle.xo_fields.specs.Length.{prefix};
ghost use Rattle.xo_list.specs.declared.builder.Put.{Put};
ghost use Rattle.xo_list.specs.Builder.{puts, IsFree};
ghost use Rattle.xo_list.specs.Item.{Item, body, lookup, spell, with_item};
ghost use Rattle.xo_list.specs.List.{IsList, IsFit};
ghost use Rattle.xo_list.specs.Span.{items};
ghost use Rattle.xo_list.specs.Value.{IsValue};

use crate::check::DEPTH;
use crate::laws::{one_reading, one_spelling};
use crate::object::{Object, read_object};
use crate::skip::{Place, skip_fields};
use hk_base::NoMemory;
use std::alloc::{AllocError, Global};
use std::marker::Model;
use xo_fields::{
    AmountRead, FieldId, Form, form_of, one_amount, read_amount, write_header, write_length,
};

/// Why a field was not put.
#[derive(Clone, Copy, Debug, PartialEq, Eq)]
pub enum PutFault {
    /// The field was put before.
    Present,
    /// The value isn't one of the field's, or no field has this kind and code.
    BadValue,
    /// There was no memory for it.
    NoMemory,
}

/// A field that was put, and its value.
#[derive(Drop)]
pub struct Put {
    field: FieldId,
    value: Vec<u8>,
}

/// The fields of an object that is made one by one, seen as their list in rising order.
#[derive(Drop)]
pub struct ObjectBuilder {
    alloc: Global,
    fields: Vec<Put>,
}

impl Model for ObjectBuilder {
    ghost use Rattle.std.specs.Prelude.{List};
    ghost use Rattle.xo_list.specs.Item.{Item};
    ghost use Rattle.xo_list.specs.Builder.{puts};
    ghost use Rattle.xo_list.specs.List.{IsList};

    ghost Value = { List Item };

    ghost view = { λ builder. puts builder.fields.items };

    ghost invariant = { λ builder. IsList (puts builder.fields.items) };
}

impl ObjectBuilder {
    /// No fields. Takes no memory.
    pub fn new(alloc: Global) -> ObjectBuilder
        ensures empty { result ≡ [] }
    {
        ObjectBuilder {
            alloc,
            fields: Vec::new(alloc),
        }
    }

    /// Adds a field with its value, which has no header, length or end mark. A refused call changes nothing.
    pub fn put(&mut self, field: FieldId, value: &[u8]) -> Result<(), PutFault>
        ensures ok { OnOk result (self.new ≡ with_item (record { field = field; value = value.now }) self.old) }
        ensures err { OnErr result (self.new ≡ self.old) }
        ensures present { (result ≡ Err PutFault.Present) ↔ IsSome (lookup field self.old) }
        ensures bad_value { result ≡ Err PutFault.BadValue → IsFit field value.now → ⊥ }
        ensures fit { OnOk result (IsFit field value.now) }
    {
        let index = match slot_of(self.fields.as_slice(), field) {
            None => return Err(PutFault::Present),
            Some(index) => index,
        };
        if !is_fit(field, value) {
            return Err(PutFault::BadValue);
        }
        let value = match Vec::from_slice(self.alloc, value) {
            Err(_) => return Err(PutFault::NoMemory),
            Ok(value) => value,
        };
        if let Err(_) = self.fields.insert(index, Put { field, value }) {
            return Err(PutFault::NoMemory);
        }
        Ok(())
    }

    /// The object of the fields in rising order.
    pub fn finish(self) -> Result<Object, NoMemory>
        ensures object { IfOk result (λ object. (items object ≡ self) × (object.bytes ≡ spell self)) }
    {
        one_spelling();
        one_reading();
        let bytes = spelled(self.alloc, self.fields.as_slice())?;
        match read_object(self.alloc, bytes.as_slice()) {
            Err(_) => Err(AllocError),
            Ok(object) => Ok(object),
        }
    }
}

/// The bytes of the fields.
fn spelled(alloc: Global, fields: &[Put]) -> Result<Vec<u8>, NoMemory>
    requires { IsList (puts fields.now) }
    ensures bytes { IfOk result (λ bytes. bytes.items ≡ spell (puts fields.now)) }
{
    let mut bytes = Vec::new(alloc);
    for put in fields {
        spell_field(&mut bytes, put.field, put.value.as_slice())?;
    }
    Ok(bytes)
}

/// Adds the bytes of a field: its header, the length where it has one, its value, and the end mark where it has one.
fn spell_field(bytes: &mut Vec<u8>, field: FieldId, value: &[u8]) -> Result<(), NoMemory>
    requires { IsFit field value.now }
    ensures bytes { OnOk result
        (bytes.new.items ≡ bytes.old.items ++ spell (record { field = field; value = value.now } ∷ [])) }
{
    let (header, size) = write_header(field);
    bytes.extend_from_slice(&header[..size])?;
    match form_of(field.kind) {
        None => Ok(()),
        Some(form) => spell_value(bytes, form, value),
    }
}

/// Adds the bytes of a value.
fn spell_value(bytes: &mut Vec<u8>, form: Form, value: &[u8]) -> Result<(), NoMemory>
    requires { IsValue 10 form value.now }
    ensures bytes { OnOk result (bytes.new.items ≡ bytes.old.items ++ body form value.now) }
{
    match form {
        Form::Fixed(_) => extend(bytes, value),
        Form::Money => extend(bytes, value),
        Form::Blob => extend_counted(bytes, value),
        Form::Account => extend_counted(bytes, value),
        Form::Object => extend_marked(bytes, value, 0xe1),
        Form::Array => extend_marked(bytes, value, 0xf1),
    }
}

fn extend(bytes: &mut Vec<u8>, value: &[u8]) -> Result<(), NoMemory>
    ensures bytes { OnOk result (bytes.new.items ≡ bytes.old.items ++ value.now) }
{
    bytes.extend_from_slice(value)?;
    Ok(())
}

fn extend_counted(bytes: &mut Vec<u8>, value: &[u8]) -> Result<(), NoMemory>
    requires { length value.now ≤ 918744 }
    ensures bytes { OnOk result (bytes.new.items ≡ bytes.old.items ++ (prefix (length value.now) ++ value.now)) }
{
    let (prefix, size) = write_length(value.len() as u32);
    bytes.extend_from_slice(&prefix[..size])?;
    bytes.extend_from_slice(value)?;
    Ok(())
}

fn extend_marked(bytes: &mut Vec<u8>, value: &[u8], mark: u8) -> Result<(), NoMemory>
    ensures bytes { OnOk result (bytes.new.items ≡ bytes.old.items ++ (value.now ++ mark ∷ [])) }
{
    bytes.extend_from_slice(value)?;
    bytes.push(mark)?;
    Ok(())
}

/// The place among the fields that were put where another belongs, or `None` where it was put before.
fn slot_of(fields: &[Put], field: FieldId) -> Option<usize>
    requires { IsList (puts fields.now) }
    ensures slot { IsFree field fields.now result }
{
    let wanted = field.number();
    for (index, put) in fields.iter().enumerate() {
        let number = put.field.number();
        if wanted < number {
            return Some(index);
        }
        if wanted == number {
            return None;
        }
    }
    Some(fields.len())
}

/// Whether the value is one of the field's.
fn is_fit(field: FieldId, value: &[u8]) -> bool
    ensures fit { IsTrue result ↔ IsFit field value.now }
{
    if field.kind == 0 || field.code == 0 {
        return false;
    }
    if field.code == 1 && (field.kind == 14 || field.kind == 15) {
        return false;
    }
    match form_of(field.kind) {
        None => false,
        Some(form) => is_value(value, form),
    }
}

/// Whether the bytes are a value of that form.
fn is_value(value: &[u8], form: Form) -> bool
    ensures value { IsTrue result ↔ IsValue 10 form value.now }
{
    match form {
        Form::Fixed(size) => value.len() == size,
        Form::Money => is_amount(value),
        Form::Blob => value.len() <= 918_744,
        Form::Account => value.len() == 20,
        Form::Object => are_fields(value),
        Form::Array => are_elements(value),
    }
}

fn is_amount(value: &[u8]) -> bool
    ensures amount { IsTrue result ↔ IsAmount value.now }
{
    one_amount();
    match read_amount(value, 0) {
        AmountRead::Cut => false,
        AmountRead::Bad => false,
        AmountRead::Amount { amount: _, size } => size == value.len(),
    }
}

/// Whether the bytes are a nested object's fields.
fn are_fields(value: &[u8]) -> bool
    ensures whole { IsTrue result ↔ IsValue 10 Form.Object value.now }
{
    one_reading();
    match skip_fields(value, 0, Place::Fields, DEPTH - 1) {
        Err(_) => false,
        Ok(_) => true,
    }
}

/// Whether the bytes are a nested array's elements.
fn are_elements(value: &[u8]) -> bool
    ensures whole { IsTrue result ↔ IsValue 10 Form.Array value.now }
{
    one_reading();
    match skip_fields(value, 0, Place::Elements, DEPTH - 1) {
        Err(_) => false,
        Ok(_) => true,
    }
}
