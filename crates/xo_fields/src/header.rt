ghost use Rattle.std.specs.Prelude.{◌≡◌, ◌≤◌, ◌<◌, length, take, drop, IsSome};
ghost use Rattle.xo_fields.specs.Form.{form_at};
ghost use Rattle.xo_fields.specs.Header.{header, IsField, HeaderGives};
ghost use Rattle.xo_fields.specs.Table.{header_at, after_zero, after_kind, after_code};

use crate::field::FieldId;
use crate::form::form_of;

/// What stands at the front of bytes that should begin with a field's header.
#[derive(Clone, Copy, Debug, PartialEq, Eq)]
pub enum HeaderRead {
    /// The bytes end before the header does.
    Cut,
    /// No header begins so, or its kind is none of the format's.
    Bad,
    /// A header of so many bytes.
    Header { field: FieldId, size: usize },
}

/// The header that stands at a place.
pub fn read_header(bytes: &[u8], at: usize) -> HeaderRead
    requires { at ≤ length bytes.now }
    ensures read { HeaderGives (drop at bytes.now) result }
{
    header_in(&bytes[at..])
}

/// The header at the front of the bytes.
fn header_in(bytes: &[u8]) -> HeaderRead
    ensures { HeaderGives bytes.now result }
{
    match spelled_header(bytes) {
        HeaderRead::Cut => HeaderRead::Cut,
        HeaderRead::Bad => HeaderRead::Bad,
        HeaderRead::Header { field, size } => match form_of(field.kind) {
            None => HeaderRead::Bad,
            Some(_) => HeaderRead::Header { field, size },
        },
    }
}

/// The header at the front of the bytes, of whatever kind.
fn spelled_header(bytes: &[u8]) -> HeaderRead
    ensures { result ≡ header_at bytes.now }
{
    match bytes {
        [] => HeaderRead::Cut,
        [first, rest @ ..] => {
            let kind = first / 16;
            let code = first % 16;
            if kind == 0 {
                if code == 0 {
                    spelled_after_zero(rest)
                } else {
                    spelled_after_code(code, rest)
                }
            } else if code == 0 {
                spelled_after_kind(kind, rest)
            } else if code == 1 && kind >= 14 {
                HeaderRead::Bad
            } else {
                HeaderRead::Header {
                    field: FieldId { kind, code },
                    size: 1,
                }
            }
        }
    }
}

/// The header after a byte 0.
fn spelled_after_zero(rest: &[u8]) -> HeaderRead
    ensures { result ≡ after_zero rest.now }
{
    match rest {
        [] => HeaderRead::Cut,
        [kind] => {
            if *kind < 16 {
                HeaderRead::Bad
            } else {
                HeaderRead::Cut
            }
        }
        [kind, code, ..] => {
            if *kind < 16 {
                HeaderRead::Bad
            } else if *code < 16 {
                HeaderRead::Bad
            } else {
                HeaderRead::Header {
                    field: FieldId {
                        kind: *kind,
                        code: *code,
                    },
                    size: 3,
                }
            }
        }
    }
}

/// The header after a byte with the kind alone.
fn spelled_after_kind(kind: u8, rest: &[u8]) -> HeaderRead
    ensures { result ≡ after_kind kind rest.now }
{
    match rest {
        [] => HeaderRead::Cut,
        [code, ..] => {
            if *code < 16 {
                HeaderRead::Bad
            } else {
                HeaderRead::Header {
                    field: FieldId { kind, code: *code },
                    size: 2,
                }
            }
        }
    }
}

/// The header after a byte with the code alone.
fn spelled_after_code(code: u8, rest: &[u8]) -> HeaderRead
    ensures { result ≡ after_code code rest.now }
{
    match rest {
        [] => HeaderRead::Cut,
        [kind, ..] => {
            if *kind < 16 {
                HeaderRead::Bad
            } else {
                HeaderRead::Header {
                    field: FieldId { kind: *kind, code },
                    size: 2,
                }
            }
        }
    }
}

/// The bytes of a field's header, and how many of the three it takes.
pub fn write_header(field: FieldId) -> ([u8; 3], usize)
    requires field { IsField field }
    requires known { IsSome (form_at field.kind) }
    ensures size { result.1 ≤ 3 }
    ensures bytes { take result.1 result.0 ≡ header field }
{
    let kind = field.kind;
    let code = field.code;
    if kind < 16 {
        if code < 16 {
            ([kind * 16 + code, 0, 0], 1)
        } else {
            ([kind * 16, code, 0], 2)
        }
    } else if code < 16 {
        ([code, kind, 0], 2)
    } else {
        ([0, kind, code], 3)
    }
}
