ghost use Rattle.std.specs.Prelude.{◌≡◌, Some, None, IfOk, IfErr, IfSome, IfNone, All, length};
ghost use Rattle.xo_list.specs.declared.fault.ObjectFault.{ObjectFault};
ghost use Rattle.xo_list.specs.Item.{lookup};
ghost use Rattle.xo_list.specs.Fault.{IsFault, IsArrayFault, Reads, fails};
ghost use Rattle.xo_list.specs.Span.{items, items_of, places, InOrder, InRange, IsRead};
ghost use Rattle.xo_list.specs.Collected.{Collects};
ghost use Rattle.xo_list.specs.Value.{IsArray, HasElements};

use crate::check::DEPTH;
use crate::fault::ObjectFault;
use crate::laws::one_reading;
use crate::skip::{Place, end_of, holds_elements, skip_value, start_of};
use crate::span::Span;
use std::alloc::Global;
use std::marker::Model;
use xo_fields::FieldId;

/// An object: its bytes, and where in them its fields' values are.
#[derive(Debug, Drop)]
pub struct Object {
    bytes: Vec<u8>,
    spans: Vec<(FieldId, Span)>,
}

impl Model for Object {
    ghost use Rattle.xo_list.specs.Span.{Seen, IsRead};

    ghost Value = { Seen };

    ghost view = { λ object. record { bytes = object.bytes.items; spans = object.spans.items } };

    ghost invariant = { λ object. IsRead object.bytes.items object.spans.items };
}

impl Object {
    /// The value of a field, without header, length and end mark, or `None` where the object has no such field.
    pub fn field(&self, field: FieldId) -> Option<&[u8]>
        ensures found { IfSome result (λ value. lookup field (items self.now) ≡ Some value.now) }
        ensures none { IfNone result (lookup field (items self.now) ≡ None) }
    {
        value_of(self.bytes.as_slice(), self.spans.as_slice(), field)
    }

    /// The fields in rising order, each with the place of its value.
    pub fn items(&self) -> &[(FieldId, Span)]
        ensures spans { result.now ≡ self.now.spans }
        ensures read { IsRead self.now.bytes self.now.spans }
    {
        self.spans.as_slice()
    }

    /// The object's bytes.
    pub fn bytes(&self) -> &[u8]
        ensures bytes { result.now ≡ self.now.bytes }
        ensures read { IsRead self.now.bytes self.now.spans }
    {
        self.bytes.as_slice()
    }
}

/// The value of a field among those that the spans name.
fn value_of<'a>(bytes: &'a [u8], spans: &[(FieldId, Span)], field: FieldId) -> Option<&'a [u8]>
    requires { All (InRange bytes.now) spans.now }
    ensures found { IfSome result (λ value. lookup field (items_of bytes.now spans.now) ≡ Some value.now) }
    ensures none { IfNone result (lookup field (items_of bytes.now spans.now) ≡ None) }
{
    for (found, span) in spans {
        if found.kind == field.kind && found.code == field.code {
            return Some(&bytes[span.from..span.to]);
        }
    }
    None
}

/// An own copy of an object's bytes with the spans of its fields.
///
/// The fault is that of the leftmost field that fails.
pub fn read_object(alloc: Global, bytes: &[u8]) -> Result<Object, ObjectFault>
    ensures ok { IfOk result (λ object. object.bytes ≡ bytes.now) }
    ensures read { IfOk result (λ object. IsRead object.bytes object.spans) }
    ensures fault { IfErr result (λ fault. (fault ≡ ObjectFault.NoMemory → ⊥) → IsFault bytes.now fault) }
{
    match collect(alloc, bytes, Place::Fields, DEPTH) {
        Err(fault) => Err(fault),
        Ok(spans) => match Vec::from_slice(alloc, bytes) {
            Err(_) => Err(ObjectFault::NoMemory),
            Ok(bytes) => Ok(Object { bytes, spans }),
        },
    }
}

/// The spans of the fields or elements that stand there, up to their end.
pub fn collect(
    alloc: Global,
    bytes: &[u8],
    place: Place,
    room: u8,
) -> Result<Vec<(FieldId, Span)>, ObjectFault>
    ensures ok { IfOk result (λ spans. Collects room place bytes.now spans.items) }
    ensures fault { IfErr result
        (λ fault. (fault ≡ ObjectFault.NoMemory → ⊥) → Reads room place 0 bytes.now (fails fault)) }
{
    let array = holds_elements(place);
    let mut spans = Vec::new(alloc);
    let mut at = 0;
    let mut last = 0;
    'fields: loop {
        if let Some(_) = end_of(bytes, at, place) {
            return Ok(spans);
        }
        match start_of(bytes, at, array, last) {
            Err(fault) => return Err(fault),
            Ok(start) => match skip_value(bytes, start.from, start.form, room) {
                Err(fault) => return Err(fault),
                Ok(value) => {
                    let span = Span {
                        from: value.from,
                        to: value.to,
                    };
                    if let Err(_) = spans.push((start.field, span)) {
                        return Err(ObjectFault::NoMemory);
                    }
                    at = value.next;
                    last = start.field.number();
                }
            },
        }
    }
}

/// The elements of an array's bytes, each with the place of its value.
///
/// The fault is that of the leftmost element that fails.
pub fn read_elements(alloc: Global, bytes: &[u8]) -> Result<Vec<(FieldId, Span)>, ObjectFault>
    ensures ok { IfOk result (λ spans. IsArray (items_of bytes.now spans.items) bytes.now) }
    ensures exact { IfOk result (λ spans. spans.items ≡ places 0 (items_of bytes.now spans.items)) }
    ensures order { IfOk result (λ spans. InOrder 0 (length bytes.now) spans.items) }
    ensures ranges { IfOk result (λ spans. All (InRange bytes.now) spans.items) }
    ensures cause { IfErr result (λ fault. (fault ≡ ObjectFault.NoMemory → ⊥) → IsArrayFault bytes.now fault) }
    ensures fault { IfErr result (λ fault. (fault ≡ ObjectFault.NoMemory → ⊥) → HasElements bytes.now → ⊥) }
{
    one_reading();
    match collect(alloc, bytes, Place::Elements, DEPTH - 1) {
        Err(fault) => Err(fault),
        Ok(spans) => Ok(spans),
    }
}
