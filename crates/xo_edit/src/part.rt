ghost use Rattle.std.specs.Prelude.{◌≡◌, ◌↔◌, Err, IfOk, IsTrue};
ghost use Rattle.xo_edit.specs.Part.{IsFieldAt, IsElementAt, LacksField, LacksElement};
ghost use Rattle.xo_list.specs.Value.{HasFields, HasElements};

use crate::fault::EditFault;
use xo_fields::FieldId;
use xo_list::{
    Located, Place, Span, check_object, element, locate, one_array, one_reading, one_spelling,
    skip_fields,
};

/// How many objects and arrays may be open in an array, which is open itself.
const ARRAY_ROOM: u8 = 9;

/// Whether the bytes are an object's fields. Takes no memory.
pub fn validate(bytes: &[u8]) -> bool
    ensures object { IsTrue result ↔ HasFields bytes.now }
{
    one_reading();
    match check_object(bytes) {
        Err(_) => false,
        Ok(_) => true,
    }
}

/// Whether the bytes are an array's elements.
fn are_elements(bytes: &[u8]) -> bool
    ensures array { IsTrue result ↔ HasElements bytes.now }
{
    one_reading();
    match skip_fields(bytes, 0, Place::Elements, ARRAY_ROOM) {
        Err(_) => false,
        Ok(_) => true,
    }
}

/// The span of a field's value in an object's bytes, without header, length and end mark. Takes no memory.
pub fn subfield(bytes: &[u8], field: FieldId) -> Result<Span, EditFault>
    ensures found { IfOk result (λ span. IsFieldAt bytes.now field span) }
    ensures parse_error { (result ≡ Err EditFault.ParseError) ↔ (HasFields bytes.now → ⊥) }
    ensures doesnt_exist { (result ≡ Err EditFault.DoesntExist) ↔ LacksField bytes.now field }
    ensures too_big { result ≡ Err EditFault.TooBig → ⊥ }
    ensures memory { result ≡ Err EditFault.NoMemory → ⊥ }
{
    one_reading();
    one_spelling();
    if !validate(bytes) {
        return Err(EditFault::ParseError);
    }
    match locate(bytes, field) {
        Located::Absent { at: _ } => Err(EditFault::DoesntExist),
        Located::Found {
            from: _,
            value,
            to: _,
        } => Ok(value),
    }
}

/// The span of an element in an array's bytes, with its header and end mark. Takes no memory.
pub fn subarray(bytes: &[u8], index: u32) -> Result<Span, EditFault>
    ensures found { IfOk result (λ span. IsElementAt bytes.now index span) }
    ensures parse_error { (result ≡ Err EditFault.ParseError) ↔ (HasElements bytes.now → ⊥) }
    ensures doesnt_exist { (result ≡ Err EditFault.DoesntExist) ↔ LacksElement bytes.now index }
    ensures too_big { result ≡ Err EditFault.TooBig → ⊥ }
    ensures memory { result ≡ Err EditFault.NoMemory → ⊥ }
{
    one_reading();
    one_array();
    if !are_elements(bytes) {
        return Err(EditFault::ParseError);
    }
    match element(bytes, index) {
        None => Err(EditFault::DoesntExist),
        Some(span) => Ok(span),
    }
}
