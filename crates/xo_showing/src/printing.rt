//! The text of an object.
ghost use Rattle.std.specs.Prelude.{◌≡◌, ◌++◌, IfOk, OnErr, OnOk};
ghost use Rattle.serde_json.specs.View.{view};
ghost use Rattle.serde_json.specs.Written.{compact_text};
ghost use Rattle.xo_list.specs.List.{IsList};
ghost use Rattle.xo_list.specs.Span.{items};
ghost use Rattle.xo_showing.specs.Showing.{showing};
ghost use Rattle.xo_showing.specs.Shows.{Shows};

use crate::value::members_of;
use hk_base::NoMemory;
use serde_json::Value;
use std::alloc::Global;
use xo_list::Object;

/// How many objects and arrays may be open in an object's fields.
const DEPTH: u8 = 10;

/// Appends the compact JSON text of an object, keys in byte order. A refused call leaves `out` as it was.
pub fn print_json(out: &mut Vec<u8>, object: &Object) -> Result<(), NoMemory>
    ensures text { OnOk result (out.new.items ≡ out.old.items ++ compact_text (showing (items object.now))) }
    ensures reads_back { OnOk result (Shows (compact_text (showing (items object.now))) (items object.now)) }
    ensures refused { OnErr result (out.new.items ≡ out.old.items) }
{
    let alloc = *out.allocator();
    let text = text_of(alloc, object)?;
    out.extend_from_slice(text.as_slice())?;
    Ok(())
}

/// The text of an object.
fn text_of(alloc: Global, object: &Object) -> Result<Vec<u8>, NoMemory>
    ensures text { IfOk result (λ text. text.items ≡ compact_text (showing (items object.now))) }
    ensures reads_back { IfOk result (λ text. Shows text.items (items object.now)) }
{
    let value = object_value(alloc, object)?;
    Ok(value.to_vec(alloc)?)
}

/// An object as a value.
fn object_value(alloc: Global, object: &Object) -> Result<Value, NoMemory>
    ensures value { IfOk result (λ value. view value ≡ showing (items object.now)) }
    ensures fields { IfOk result (λ value. IsList (items object.now)) }
{
    let members = members_of(alloc, object.bytes(), object.items(), DEPTH)?;
    Ok(Value::from(members))
}
