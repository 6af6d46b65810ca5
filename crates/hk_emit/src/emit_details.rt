//! EmitDetails: what an emission says of the execution that emits it.
ghost use Rattle.std.specs.Prelude.{◌≡◌, ◌+◌, ◌≤◌, ◌++◌, length, take, option_copied};
ghost use Rattle.xo_list.specs.Span.{items};
ghost use Rattle.hk_emit.specs.Details.{details, details_fields, details_size};
ghost use Rattle.hk_emit.specs.Accept.{has_value, has_details, nonce_of};

use crate::context::EmitContext;
use crate::names::EMIT_DETAILS;
use crate::written::{LONGEST_DETAILS, Written};
use hk_base::Hash256;
use xo_fields::FieldId;
use xo_object::Object;

/// The field EmitDetails with header and end mark, and how many of the bytes it takes: 138 with a callback, else 116.
/// Takes no memory.
pub fn details(context: &EmitContext, nonce: &Hash256) -> ([u8; LONGEST_DETAILS], usize)
    ensures bytes { take result.1 result.0 ≡ details context.now nonce.now }
    ensures size { result.1 ≡ details_size context.now }
{
    let mut written = Written::new();
    written.put(&[0xED]);
    write_fields(&mut written, context, nonce);
    written.put(&[0xE1]);
    written.into_parts()
}

/// Writes the fields of EmitDetails.
fn write_fields(written: &mut Written, context: &EmitContext, nonce: &Hash256)
    requires room { length written.old ≤ 1 }
    ensures fields { written.new ≡ written.old ++ details_fields context.now nonce.now }
    ensures size { length written.new + 2 ≡ length written.old + details_size context.now }
    ensures most { length written.new ≤ length written.old + 136 }
{
    written.put(&[0x20, 0x2E]);
    written.put(&context.generation.to_be_bytes());
    written.put(&[0x3D]);
    written.put(&context.burden.to_be_bytes());
    written.put(&[0x5B]);
    written.put(&context.parent.0);
    written.put(&[0x5C]);
    written.put(&nonce.0);
    written.put(&[0x5D]);
    written.put(&context.hash.0);
    if context.with_callback {
        written.put(&[0x8A, 0x14]);
        written.put(&context.account.0);
    }
}

/// Whether an object has a field with this value.
pub(crate) fn has_value(object: &Object, field: FieldId, value: &[u8]) -> bool
    ensures has { result ≡ has_value field value.now (items object.now) }
{
    match object.field(field) {
        None => false,
        Some(found) => found == value,
    }
}

/// The nonce whose details an object has.
pub(crate) fn nonce_of<'a>(
    object: &Object,
    context: &EmitContext,
    nonces: &'a [Hash256],
) -> Option<&'a Hash256>
    ensures nonce { option_copied result ≡ nonce_of context.now nonces.now (items object.now) }
{
    nonces
        .iter()
        .find(|nonce| has_details(object, context, nonce))
}

/// Whether an object has this execution's details with that nonce.
fn has_details(object: &Object, context: &EmitContext, nonce: &Hash256) -> bool
    ensures has { result ≡ has_details context.now (items object.now) nonce.now }
{
    let mut written = Written::new();
    write_fields(&mut written, context, nonce);
    has_value(object, EMIT_DETAILS, written.as_slice())
}
