//! The fields that keys name.
ghost use Rattle.std.specs.Prelude.{◌≡◌, ◌<◌, IfOk, MatchOption, Some, IsTrue, ◌↔◌, None};
ghost use Rattle.xo_fields.specs.declared.field.FieldId.{FieldId};
ghost use Rattle.xo_fields.specs.Form.{form_at};
ghost use Rattle.xo_fields.specs.Header.{IsField};
ghost use Rattle.xo_showing.specs.Key.{numbers};
ghost use Rattle.xo_showing.specs.Name.{name_of};
ghost use Rattle.xo_json.specs.Parts.{ReadsKey};

use crate::decimal::read_decimal;
use hk_base::NoMemory;
use std::alloc::Global;
use xo_fields::{FieldId, Form, field_by_name, form_of};
use xo_showing::field_name;

/// The field that a key names, and the form of its values.
#[derive(Clone, Copy, Debug)]
pub(crate) struct Keyed {
    pub(crate) field: FieldId,
    pub(crate) form: Form,
}

/// The field that a key names, if it is one's.
pub(crate) fn read_key(alloc: Global, key: &str) -> Result<Option<Keyed>, NoMemory>
    ensures key { IfOk result (λ found. ReadsKey key.now found) }
{
    if let Some(field) = field_by_name(key.as_bytes()) {
        return Ok(formed(field));
    }
    let Some(field) = read_numbers(alloc, key)? else {
        return Ok(None);
    };
    if is_nameless(field) {
        Ok(formed(field))
    } else {
        Ok(None)
    }
}

/// The field with the form of its values, where its kind has any.
fn formed(field: FieldId) -> Option<Keyed>
    ensures form { MatchOption result (form_at field.kind ≡ None)
        (λ keyed. (keyed.field ≡ field) × (form_at field.kind ≡ Some keyed.form)) }
{
    match form_of(field.kind) {
        None => None,
        Some(form) => Some(Keyed { field, form }),
    }
}

/// The kind and the code of a key that is these numbers.
fn read_numbers(alloc: Global, key: &str) -> Result<Option<FieldId>, NoMemory>
    ensures numbers { IfOk result (λ found. MatchOption found
        ((field : FieldId) → field.kind < 256 → field.code < 256 → numbers field ≡ key.now → ⊥)
        (λ field. (field.kind < 256) × (field.code < 256) × (numbers field ≡ key.now))) }
{
    let Some((kind, code)) = key.split_once('/') else {
        return Ok(None);
    };
    let Some(kind) = read_decimal(alloc, 255, kind)? else {
        return Ok(None);
    };
    let Some(code) = read_decimal(alloc, 255, code)? else {
        return Ok(None);
    };
    Ok(Some(FieldId {
        kind: kind as u8,
        code: code as u8,
    }))
}

/// Whether the kind and the code are a field's that has no name.
fn is_nameless(field: FieldId) -> bool
    ensures nameless { IsTrue result ↔ (IsField field × (name_of field ≡ None)) }
{
    if field.kind == 0 || field.code == 0 {
        return false;
    }
    if field.code == 1 && (field.kind == 14 || field.kind == 15) {
        return false;
    }
    field_name(field).is_none()
}
