//! Parts of kept bytes, as slots show them.
ghost use Rattle.std.specs.Prelude.{◌≡◌, ◌+◌, ◌<◌, ◌^◌, List, slice_get, option_map, Ok, Err, MatchResult, IfSome};
ghost use Rattle.hk_slots.specs.Slots.{subfield_of, element_of, is_object, is_array};
ghost use Rattle.hk_slots.specs.Part.{slot_of, inner, part_of, IsPart};
ghost use Rattle.xo_list.specs.Item.{Item};
ghost use Rattle.xo_list.specs.Span.{item_of, InRange};
ghost use Rattle.xo_list.specs.Value.{HasElements, IsArray};

use crate::fault::SlotFault;
use hk_base::Items;
use xo_fields::{FieldId, HeaderRead, one_header_read, read_header};
use xo_list::{Span, element, find_field, more_room};

/// The kind of fields that are objects.
const OBJECT: u8 = 14;
/// The kind of fields that are arrays.
const ARRAY: u8 = 15;

/// A part of a blob: an object, or the value of a field.
#[derive(Clone, Copy, Debug, PartialEq, Eq)]
pub(crate) struct Part {
    /// The field whose value it is, and none of an object that was put into a slot whole.
    pub(crate) field: Option<FieldId>,
    /// The place of its blob.
    pub(crate) blob: usize,
    pub(crate) span: Span,
}

/// Which part of a slot is asked for.
#[derive(Clone, Copy, Debug, PartialEq, Eq)]
pub(crate) enum Step {
    /// An object's field.
    Field(FieldId),
    /// An array's element, counted from 0.
    Element(u32),
}

/// The bytes of a part.
pub(crate) fn bytes_of<'a>(blobs: &'a [Items<u8>], part: &Part) -> &'a [u8]
    requires { IsPart blobs.now part.now }
    ensures bytes { result.now ≡ (slot_of blobs.now part.now).bytes }
{
    &blobs[part.blob].as_slice()[part.span.from..part.span.to]
}

/// Whether a slot with this field is an object.
pub(crate) fn is_object(field: Option<FieldId>) -> bool
    ensures object { result ≡ is_object field }
{
    match field {
        None => true,
        Some(field) => field.kind == OBJECT,
    }
}

/// Whether a slot with this field is an array.
pub(crate) fn is_array(field: Option<FieldId>) -> bool
    ensures array { result ≡ is_array field }
{
    match field {
        None => false,
        Some(field) => field.kind == ARRAY,
    }
}

/// The part that is a field's value.
fn subfield_in(blobs: &[Items<u8>], whole: &Part, field: FieldId) -> Result<Part, SlotFault>
    requires { IsPart blobs.now whole.now }
    ensures part { MatchResult result (λ p. subfield_of field (slot_of blobs.now whole.now) ≡ Ok (slot_of blobs.now p))
        (λ fault. subfield_of field (slot_of blobs.now whole.now) ≡ Err fault) }
    ensures fits { MatchResult result (λ p. IsPart blobs.now p) (λ fault. fault ≡ SlotFault.NoMemory → ⊥) }
{
    more_room();
    if !is_object(whole.field) {
        return Err(SlotFault::NotAnObject);
    }
    match find_field(bytes_of(blobs, whole), field) {
        None => Err(SlotFault::DoesntExist),
        Some(span) => Ok(inner(whole, field, span)),
    }
}

/// The part that is an element's contents.
fn element_in(blobs: &[Items<u8>], whole: &Part, index: u32) -> Result<Part, SlotFault>
    requires { IsPart blobs.now whole.now }
    ensures part { MatchResult result (λ p. element_of index (slot_of blobs.now whole.now) ≡ Ok (slot_of blobs.now p))
        (λ fault. element_of index (slot_of blobs.now whole.now) ≡ Err fault) }
    ensures fits { MatchResult result (λ p. IsPart blobs.now p) (λ fault. fault ≡ SlotFault.NoMemory → ⊥) }
{
    more_room();
    if !is_array(whole.field) {
        return Err(SlotFault::NotAnArray);
    }
    match contents_at(bytes_of(blobs, whole), index) {
        None => Err(SlotFault::DoesntExist),
        Some((field, span)) => Ok(inner(whole, field, span)),
    }
}

/// The field of an array's element, and where its contents stand, without header and end mark.
fn contents_at(bytes: &[u8], index: u32) -> Option<(FieldId, Span)>
    requires { HasElements bytes.now }
    ensures found { (elements : List Item) → IsArray elements bytes.now →
        slice_get elements index ≡ option_map (item_of bytes.now) result }
    ensures within { IfSome result (InRange bytes.now) }
{
    one_header_read();
    match element(bytes, index) {
        None => None,
        Some(span) => match read_header(bytes, span.from) {
            HeaderRead::Cut => None,
            HeaderRead::Bad => None,
            HeaderRead::Header { field, size } => {
                let contents = Span {
                    from: span.from + size,
                    to: span.to - 1,
                };
                Some((field, contents))
            }
        },
    }
}

/// The part that is asked for.
pub(crate) fn part_in(blobs: &[Items<u8>], whole: &Part, step: Step) -> Result<Part, SlotFault>
    requires { IsPart blobs.now whole.now }
    ensures part { MatchResult result (λ p. part_of step (slot_of blobs.now whole.now) ≡ Ok (slot_of blobs.now p))
        (λ fault. part_of step (slot_of blobs.now whole.now) ≡ Err fault) }
    ensures fits { MatchResult result (λ p. IsPart blobs.now p) (λ fault. fault ≡ SlotFault.NoMemory → ⊥) }
{
    match step {
        Step::Field(field) => subfield_in(blobs, whole, field),
        Step::Element(index) => element_in(blobs, whole, index),
    }
}

/// A part of a part.
fn inner(whole: &Part, field: FieldId, span: Span) -> Part
    requires from { whole.now.span.from + span.from < 2 ^ 64 }
    requires to { whole.now.span.from + span.to < 2 ^ 64 }
    ensures inner { result ≡ inner whole.now field span }
{
    Part {
        field: Some(field),
        blob: whole.blob,
        span: Span {
            from: whole.span.from + span.from,
            to: whole.span.from + span.to,
        },
    }
}
