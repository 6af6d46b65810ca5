ghost use Rattle.std.specs.Prelude.{◌≡◌, ◌+◌, ◌*◌, ◌≤◌, ◌<◌, ◌∷◌, Bool, List, ℕ, length, take, drop, Some, MatchOption};
ghost use Rattle.std.specs.Prelude.{MatchResult, IfOk};
ghost use Rattle.xo_fields.specs.declared.field.FieldId.{FieldId};
ghost use Rattle.xo_list.specs.Value.{Allowed, Head, IsValue};
ghost use Rattle.xo_list.specs.Fault.{is_array, IsEnd, IsNoEnd, HeaderFault, HeadFails, BodyFails, Reads, ends, fails};
ghost use Rattle.xo_list.specs.Item.{lead};
ghost use Rattle.xo_list.specs.Span.{part, Valued};

use crate::fault::ObjectFault;
use xo_fields::{
    AmountRead, FieldId, Form, HeaderRead, LengthRead, form_of, read_amount, read_header,
    read_length,
};

/// The end mark of a nested object.
const OBJECT_END: u8 = 0xe1;
/// The end mark of a nested array.
const ARRAY_END: u8 = 0xf1;
/// The kind of an object's field, of which an array's elements are.
const OBJECT_KIND: u8 = 14;
/// How many bytes an account has.
const ACCOUNT_SIZE: u32 = 20;

/// Where fields stand, and what ends them.
#[derive(Clone, Copy, Debug, PartialEq, Eq)]
pub enum Place {
    /// An object's fields, up to the end of the bytes.
    Fields,
    /// A nested object's fields, up to the mark E1.
    NestedFields,
    /// An array's elements, up to the end of the bytes.
    Elements,
    /// A nested array's elements, up to the mark F1.
    NestedElements,
}

/// A value that was passed over: where it begins and ends, and where what follows it begins.
#[derive(Clone, Copy, Debug, PartialEq, Eq)]
pub struct Skipped {
    pub from: usize,
    pub to: usize,
    pub next: usize,
}

/// A header that was passed over: its field, and where the field's value begins with its length.
#[derive(Clone, Copy, Debug, PartialEq, Eq)]
pub struct Start {
    pub field: FieldId,
    pub form: Form,
    pub from: usize,
}

/// Whether the fields of a place are an array's elements.
pub fn holds_elements(place: Place) -> bool
    ensures array { result ≡ is_array place }
{
    match place {
        Place::Fields => false,
        Place::NestedFields => false,
        Place::Elements => true,
        Place::NestedElements => true,
    }
}

/// Where the bytes go on after the end of the fields, if they end here.
pub fn end_of(bytes: &[u8], at: usize, place: Place) -> Option<usize>
    requires { at ≤ length bytes.now }
    ensures within { MatchOption result (Unit {0}) (λ to. (at ≤ to) × (to ≤ length bytes.now)) }
    ensures ends { MatchOption result (IsNoEnd place (drop at bytes.now))
        (λ to. IsEnd place (drop at bytes.now) (drop to bytes.now)) }
{
    match place {
        Place::Fields => end_of_bytes(bytes, at),
        Place::Elements => end_of_bytes(bytes, at),
        Place::NestedFields => end_at_mark(bytes, at, OBJECT_END),
        Place::NestedElements => end_at_mark(bytes, at, ARRAY_END),
    }
}

fn end_of_bytes(bytes: &[u8], at: usize) -> Option<usize>
    requires { at ≤ length bytes.now }
    ensures within { MatchOption result (Unit {0}) (λ to. (at ≤ to) × (to ≤ length bytes.now)) }
    ensures ends { MatchOption result (IsNoEnd Place.Fields (drop at bytes.now))
        (λ to. IsEnd Place.Fields (drop at bytes.now) (drop to bytes.now)) }
{
    if at == bytes.len() { Some(at) } else { None }
}

fn end_at_mark(bytes: &[u8], at: usize, mark: u8) -> Option<usize>
    requires { at ≤ length bytes.now }
    ensures within { MatchOption result (Unit {0}) (λ to. (at ≤ to) × (to ≤ length bytes.now)) }
    ensures ends { MatchOption result ((rest : List ℕ) → drop at bytes.now ≡ mark ∷ rest → ⊥)
        (λ to. drop at bytes.now ≡ mark ∷ drop to bytes.now) }
{
    if at < bytes.len() {
        if bytes[at] == mark {
            return Some(at + 1);
        }
    }
    None
}

/// The header of the next field, after a field of the last number.
pub fn start_of(bytes: &[u8], at: usize, array: bool, last: u32) -> Result<Start, ObjectFault>
    requires { at ≤ length bytes.now }
    ensures within { IfOk result (λ start. (at < start.from) × (start.from ≤ length bytes.now)) }
    ensures start { MatchResult result
        (λ start. Head array last start.field start.form (drop at bytes.now) (drop start.from bytes.now))
        (λ fault. HeadFails array last (drop at bytes.now) fault) }
{
    match read_header(bytes, at) {
        HeaderRead::Cut => Err(ObjectFault::Cut),
        HeaderRead::Bad => Err(ObjectFault::UnknownField),
        HeaderRead::Header { field, size } => {
            if let Some(fault) = misplaced(field, array, last) {
                return Err(fault);
            }
            match form_of(field.kind) {
                None => Err(ObjectFault::UnknownField),
                Some(form) => Ok(Start {
                    field,
                    form,
                    from: at + size,
                }),
            }
        }
    }
}

/// The fault of a field that may not stand after a field of the last number.
fn misplaced(field: FieldId, array: bool, last: u32) -> Option<ObjectFault>
    ensures allowed { MatchOption result (Allowed array last field)
        (λ fault. (size : ℕ) → HeaderFault array last (HeaderRead.Header field size) fault) }
{
    if array {
        if field.kind == OBJECT_KIND {
            None
        } else {
            Some(ObjectFault::UnknownField)
        }
    } else if last < field.number() {
        None
    } else {
        Some(ObjectFault::OutOfOrder)
    }
}

/// Passes over a value of that form, where so many objects and arrays may be open in it.
#[cycle(nested)]
pub fn skip_value(bytes: &[u8], at: usize, form: Form, room: u8) -> Result<Skipped, ObjectFault>
    requires { at ≤ length bytes.now }
    ensures within { IfOk result
        (λ v. (at ≤ v.from) × (v.from ≤ v.to) × (v.to ≤ v.next) × (v.next ≤ length bytes.now)) }
    ensures value { MatchResult result
        (λ v. Valued room form (drop at bytes.now) (part bytes.now v.from v.to) (drop v.next bytes.now))
        (λ fault. BodyFails room form (drop at bytes.now) fault) }
    ensures place { IfOk result (λ v. v.from ≡ at + length (lead (Some form) (part bytes.now v.from v.to))) }
{
    match form {
        Form::Fixed(size) => skip_fixed(bytes, at, size),
        Form::Money => skip_amount(bytes, at),
        Form::Blob => skip_blob(bytes, at),
        Form::Account => skip_account(bytes, at),
        Form::Object => {
            if room == 0 {
                return Err(ObjectFault::TooDeep);
            }
            match skip_fields(bytes, at, Place::NestedFields, room - 1) {
                Err(fault) => Err(fault),
                Ok(next) => Ok(Skipped {
                    from: at,
                    to: next - 1,
                    next,
                }),
            }
        }
        Form::Array => {
            if room == 0 {
                return Err(ObjectFault::TooDeep);
            }
            match skip_fields(bytes, at, Place::NestedElements, room - 1) {
                Err(fault) => Err(fault),
                Ok(next) => Ok(Skipped {
                    from: at,
                    to: next - 1,
                    next,
                }),
            }
        }
    }
}

fn skip_fixed(bytes: &[u8], at: usize, size: usize) -> Result<Skipped, ObjectFault>
    requires { at ≤ length bytes.now }
    ensures within { IfOk result
        (λ v. (at ≤ v.from) × (v.from ≤ v.to) × (v.to ≤ v.next) × (v.next ≤ length bytes.now)) }
    ensures value { MatchResult result
        (λ v. Valued 0 (Form.Fixed size) (drop at bytes.now) (part bytes.now v.from v.to) (drop v.next bytes.now))
        (λ fault. BodyFails 0 (Form.Fixed size) (drop at bytes.now) fault) }
    ensures place { IfOk result
        (λ v. v.from ≡ at + length (lead (Some (Form.Fixed size)) (part bytes.now v.from v.to))) }
{
    if bytes.len() - at < size {
        return Err(ObjectFault::Cut);
    }
    let next = at + size;
    Ok(Skipped {
        from: at,
        to: next,
        next,
    })
}

fn skip_amount(bytes: &[u8], at: usize) -> Result<Skipped, ObjectFault>
    requires { at ≤ length bytes.now }
    ensures within { IfOk result
        (λ v. (at ≤ v.from) × (v.from ≤ v.to) × (v.to ≤ v.next) × (v.next ≤ length bytes.now)) }
    ensures value { MatchResult result
        (λ v. Valued 0 Form.Money (drop at bytes.now) (part bytes.now v.from v.to) (drop v.next bytes.now))
        (λ fault. BodyFails 0 Form.Money (drop at bytes.now) fault) }
    ensures place { IfOk result (λ v. v.from ≡ at + length (lead (Some Form.Money) (part bytes.now v.from v.to))) }
{
    match read_amount(bytes, at) {
        AmountRead::Cut => Err(ObjectFault::Cut),
        AmountRead::Bad => Err(ObjectFault::BadAmount),
        AmountRead::Amount { amount: _, size } => {
            let next = at + size;
            Ok(Skipped {
                from: at,
                to: next,
                next,
            })
        }
    }
}

fn skip_blob(bytes: &[u8], at: usize) -> Result<Skipped, ObjectFault>
    requires { at ≤ length bytes.now }
    ensures within { IfOk result
        (λ v. (at ≤ v.from) × (v.from ≤ v.to) × (v.to ≤ v.next) × (v.next ≤ length bytes.now)) }
    ensures value { MatchResult result
        (λ v. Valued 0 Form.Blob (drop at bytes.now) (part bytes.now v.from v.to) (drop v.next bytes.now))
        (λ fault. BodyFails 0 Form.Blob (drop at bytes.now) fault) }
    ensures place { IfOk result (λ v. v.from ≡ at + length (lead (Some Form.Blob) (part bytes.now v.from v.to))) }
{
    match read_length(bytes, at) {
        LengthRead::Cut => Err(ObjectFault::Cut),
        LengthRead::Bad => Err(ObjectFault::BadLength),
        LengthRead::Length { length, size } => {
            let from = at + size;
            if bytes.len() - from < length as usize {
                return Err(ObjectFault::Cut);
            }
            let next = from + length as usize;
            Ok(Skipped {
                from,
                to: next,
                next,
            })
        }
    }
}

fn skip_account(bytes: &[u8], at: usize) -> Result<Skipped, ObjectFault>
    requires { at ≤ length bytes.now }
    ensures within { IfOk result
        (λ v. (at ≤ v.from) × (v.from ≤ v.to) × (v.to ≤ v.next) × (v.next ≤ length bytes.now)) }
    ensures value { MatchResult result
        (λ v. Valued 0 Form.Account (drop at bytes.now) (part bytes.now v.from v.to) (drop v.next bytes.now))
        (λ fault. BodyFails 0 Form.Account (drop at bytes.now) fault) }
    ensures place { IfOk result (λ v. v.from ≡ at + length (lead (Some Form.Account) (part bytes.now v.from v.to))) }
{
    match read_length(bytes, at) {
        LengthRead::Cut => Err(ObjectFault::Cut),
        LengthRead::Bad => Err(ObjectFault::BadLength),
        LengthRead::Length { length, size } => {
            if length != ACCOUNT_SIZE {
                return Err(ObjectFault::BadLength);
            }
            let from = at + size;
            if bytes.len() - from < 20 {
                return Err(ObjectFault::Cut);
            }
            Ok(Skipped {
                from,
                to: from + 20,
                next: from + 20,
            })
        }
    }
}

/// Passes over the fields that stand there, and over their end mark.
#[cycle(nested)]
pub fn skip_fields(bytes: &[u8], from: usize, place: Place, room: u8) -> Result<usize, ObjectFault>
    requires { from ≤ length bytes.now }
    ensures within { IfOk result (λ to. (from ≤ to) × (to ≤ length bytes.now)) }
    ensures reads { MatchResult result (λ to. Reads room place 0 (drop from bytes.now) (ends (drop to bytes.now)))
        (λ fault. Reads room place 0 (drop from bytes.now) (fails fault)) }
{
    let array = holds_elements(place);
    let mut at = from;
    let mut last = 0;
    'fields: loop {
        if let Some(to) = end_of(bytes, at, place) {
            return Ok(to);
        }
        match start_of(bytes, at, array, last) {
            Err(fault) => return Err(fault),
            Ok(start) => match skip_value(bytes, start.from, start.form, room) {
                Err(fault) => return Err(fault),
                Ok(skipped) => {
                    at = skipped.next;
                    last = start.field.number();
                }
            },
        }
    }
}
