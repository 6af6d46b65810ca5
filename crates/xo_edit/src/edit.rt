ghost use Rattle.std.specs.Prelude.{◌≡◌, ◌<◌, ◌≤◌, ◌⊎◌, ◌↔◌, ◌++◌, length, Err, IfOk, IfErr, IsTrue};
ghost use Rattle.xo_edit.specs.Edit.{IsField, Emplaces, Erases};
ghost use Rattle.xo_edit.specs.Part.{LacksField};
ghost use Rattle.xo_list.specs.Value.{HasFields};

use crate::fault::EditFault;
use crate::part::validate;
use std::alloc::{AllocError, Global};
use xo_fields::FieldId;
use xo_list::{Located, edits, locate, one_reading, one_spelling};

/// The most bytes of an object that is edited.
const LONGEST_OBJECT: usize = 16_384;
/// The most bytes of a field that is put into one.
const LONGEST_FIELD: usize = 4_096;

/// The object with a field put into it, over the one of the same number if there is one.
pub fn emplace(
    alloc: Global,
    bytes: &[u8],
    put: &[u8],
    field: FieldId,
) -> Result<Vec<u8>, EditFault>
    ensures emplaced { IfOk result (λ edited. Emplaces bytes.now put.now field edited.items) }
    ensures too_big { (result ≡ Err EditFault.TooBig) ↔ ((16384 < length bytes.now) ⊎ (4096 < length put.now)) }
    ensures parse_error { (result ≡ Err EditFault.ParseError)
        ↔ ((length bytes.now ≤ 16384) × (length put.now ≤ 4096) × (HasFields bytes.now × IsField put.now field → ⊥)) }
    ensures doesnt_exist { result ≡ Err EditFault.DoesntExist → ⊥ }
{
    if bytes.len() > LONGEST_OBJECT {
        return Err(EditFault::TooBig);
    }
    if put.len() > LONGEST_FIELD {
        return Err(EditFault::TooBig);
    }
    if !validate(bytes) {
        return Err(EditFault::ParseError);
    }
    if !is_field(put, field) {
        return Err(EditFault::ParseError);
    }
    emplaced(alloc, bytes, put, field)
}

/// The object without a field.
pub fn erase(alloc: Global, bytes: &[u8], field: FieldId) -> Result<Vec<u8>, EditFault>
    ensures erased { IfOk result (λ edited. Erases bytes.now field edited.items) }
    ensures too_big { (result ≡ Err EditFault.TooBig) ↔ (16384 < length bytes.now) }
    ensures parse_error { (result ≡ Err EditFault.ParseError)
        ↔ ((length bytes.now ≤ 16384) × (HasFields bytes.now → ⊥)) }
    ensures doesnt_exist { (result ≡ Err EditFault.DoesntExist)
        ↔ ((length bytes.now ≤ 16384) × LacksField bytes.now field) }
{
    one_reading();
    one_spelling();
    edits();
    if bytes.len() > LONGEST_OBJECT {
        return Err(EditFault::TooBig);
    }
    if !validate(bytes) {
        return Err(EditFault::ParseError);
    }
    match locate(bytes, field) {
        Located::Absent { at: _ } => Err(EditFault::DoesntExist),
        Located::Found { from, value: _, to } => {
            match joined(alloc, &bytes[..from], &[], &bytes[to..]) {
                Err(_) => Err(EditFault::NoMemory),
                Ok(edited) => Ok(edited),
            }
        }
    }
}

/// Whether the bytes are that field and no more.
fn is_field(bytes: &[u8], field: FieldId) -> bool
    ensures field { IsTrue result ↔ IsField bytes.now field }
{
    one_reading();
    one_spelling();
    if !validate(bytes) {
        return false;
    }
    match locate(bytes, field) {
        Located::Absent { at: _ } => false,
        Located::Found { from, value: _, to } => from == 0 && to == bytes.len(),
    }
}

/// The object with the field in its place.
fn emplaced(alloc: Global, bytes: &[u8], put: &[u8], field: FieldId) -> Result<Vec<u8>, EditFault>
    requires object { HasFields bytes.now }
    requires field { IsField put.now field }
    ensures emplaced { IfOk result (λ edited. Emplaces bytes.now put.now field edited.items) }
    ensures memory { IfErr result (λ fault. fault ≡ EditFault.NoMemory) }
{
    one_reading();
    one_spelling();
    edits();
    match locate(bytes, field) {
        Located::Absent { at } => {
            match joined(alloc, &bytes[..at], put, &bytes[at..]) {
                Err(_) => Err(EditFault::NoMemory),
                Ok(edited) => Ok(edited),
            }
        }
        Located::Found { from, value: _, to } => {
            match joined(alloc, &bytes[..from], put, &bytes[to..]) {
                Err(_) => Err(EditFault::NoMemory),
                Ok(edited) => Ok(edited),
            }
        }
    }
}

/// The bytes one behind the other.
fn joined(alloc: Global, front: &[u8], middle: &[u8], back: &[u8]) -> Result<Vec<u8>, AllocError>
    ensures joined { IfOk result (λ whole. whole.items ≡ front.now ++ (middle.now ++ back.now)) }
{
    let mut whole = Vec::new(alloc);
    whole.extend_from_slice(front)?;
    whole.extend_from_slice(middle)?;
    whole.extend_from_slice(back)?;
    Ok(whole)
}
