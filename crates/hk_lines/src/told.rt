//! What every command prints of an input that isn't right.
ghost use Rattle.std.specs.Prelude.{◌≡◌, ◌++◌, OnOk};
ghost use Rattle.hk_lines.specs.Given.{bad_text, too_long};

use crate::Rule;
use hk_base::NoMemory;
use std::alloc::Global;

/// Appends `bad <line> <rule>`, by the number of the line and the rule that it breaks.
pub fn push_bad(alloc: Global, number: u64, rule: Rule, out: &mut Vec<u8>) -> Result<(), NoMemory>
    ensures text { OnOk result (out.new.items ≡ out.old.items ++ bad_text number rule) }
{
    let name = rule.name();
    let text = format!(in alloc; "bad {number} {name}\n")?;
    out.extend_from_slice(text.as_bytes())
}

/// The line for an input that is too long.
pub fn too_long_line() -> &'static [u8]
    ensures text { result.now ≡ too_long.text }
{
    b"too long\n"
}
