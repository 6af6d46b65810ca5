//! Parts and edits of objects, with the codes of their faults.
ghost use Rattle.std.specs.Prelude.{◌≡◌, ◌≤◌, length, is_some, IfOk};
ghost use Rattle.hk_calls.specs.Answers.{ShowsUnless};
ghost use Rattle.hk_api_pure.specs.Editing as edits;

use hk_calls::{Code, Refusal};
use std::alloc::Global;
use xo_edit::{EditFault, emplace, erase, validate};
use xo_fields::FieldId;
use xo_list::{Span, find_field, one_spelling};

/// Whether the bytes are an object's.
pub(crate) fn is_object(bytes: &[u8]) -> bool
    ensures { result ≡ is_some (edits.object_fields bytes.now) }
{
    validate(bytes)
}

/// Where the value of an object's field stands.
pub(crate) fn subfield(bytes: &[u8], field: FieldId) -> Result<Span, Code>
    ensures part { result ≡ edits.subfield bytes.now field }
    ensures order { IfOk result (λ part. part.from ≤ part.to) }
    ensures within { IfOk result (λ part. part.to ≤ length bytes.now) }
{
    if !validate(bytes) {
        return Err(Code::ParseError);
    }
    match find_field(bytes, field) {
        Some(part) => Ok(part),
        None => Err(Code::DoesntExist),
    }
}

/// Where an array's element stands, with its header and end mark.
pub(crate) fn subarray(bytes: &[u8], index: u32) -> Result<Span, Code>
    ensures part { result ≡ edits.subarray bytes.now index }
    ensures order { IfOk result (λ part. part.from ≤ part.to) }
    ensures within { IfOk result (λ part. part.to ≤ length bytes.now) }
{
    match xo_edit::subarray(bytes, index) {
        Ok(part) => Ok(part),
        Err(EditFault::ParseError) => Err(Code::ParseError),
        Err(EditFault::DoesntExist) => Err(Code::DoesntExist),
        Err(EditFault::TooBig) => unreachable!(),
        Err(EditFault::NoMemory) => unreachable!(),
    }
}

/// The object with one spelled field put into it.
pub(crate) fn emplaced(
    alloc: Global,
    bytes: &[u8],
    put: &[u8],
    field: FieldId,
) -> Result<Vec<u8>, Refusal>
    ensures { ShowsUnless (λ edited. edited.items) result (edits.emplaced bytes.now put.now field) }
{
    one_spelling();
    match emplace(alloc, bytes, put, field) {
        Ok(edited) => Ok(edited),
        Err(EditFault::TooBig) => Err(Refusal::Code(Code::TooBig)),
        Err(EditFault::ParseError) => Err(Refusal::Code(Code::ParseError)),
        Err(EditFault::DoesntExist) => Err(Refusal::Code(Code::DoesntExist)),
        Err(EditFault::NoMemory) => Err(Refusal::NoMemory),
    }
}

/// The object without a field.
pub(crate) fn erased(alloc: Global, bytes: &[u8], field: FieldId) -> Result<Vec<u8>, Refusal>
    ensures { ShowsUnless (λ edited. edited.items) result (edits.erased bytes.now field) }
{
    one_spelling();
    match erase(alloc, bytes, field) {
        Ok(edited) => Ok(edited),
        Err(EditFault::TooBig) => Err(Refusal::Code(Code::TooBig)),
        Err(EditFault::ParseError) => Err(Refusal::Code(Code::ParseError)),
        Err(EditFault::DoesntExist) => Err(Refusal::Code(Code::DoesntExist)),
        Err(EditFault::NoMemory) => Err(Refusal::NoMemory),
    }
}
