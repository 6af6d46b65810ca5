//! The keys of fields.
ghost use Rattle.std.specs.Prelude.{◌≡◌, IfOk, string_bytes};
ghost use Rattle.xo_showing.specs.Key.{key};

use crate::name::name_text;
use hk_base::NoMemory;
use std::alloc::Global;
use xo_fields::FieldId;

/// The key of a field: its name, or kind and code in decimal where it has none.
pub(crate) fn key_of(alloc: Global, field: FieldId) -> Result<String, NoMemory>
    ensures key { IfOk result (λ text. string_bytes text ≡ key field) }
{
    match name_text(field) {
        Some(name) => Ok(String::from_str(alloc, name)?),
        None => Ok(format!(in alloc; "{}/{}", field.kind, field.code)?),
    }
}
