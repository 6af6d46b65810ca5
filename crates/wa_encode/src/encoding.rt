//! Modules.
ghost use Rattle.std.specs.Prelude.{◌≡◌, ◌++◌, IfOk, OnOk, option_map};
ghost use Rattle.wa_encode.specs.Modules.{encoded, filled, section};
ghost use Rattle.wa_encode.specs.Numbers.{number};

use crate::numbers::word;
use crate::parts::{Codes, Elements, Exports, Globals, Imports, Segments};
use crate::types::{FuncTypes, Ranges, Tables};
use crate::vectors::{Index, Written, text, vector};
use std::alloc::Global;
use wa_ops::{Module, NoMemory};

/// The magic number and the version that each module begins with.
const HEADER: [u8; 8] = [0x00, 0x61, 0x73, 0x6D, 0x01, 0x00, 0x00, 0x00];

/// The bytes of a module, of its spellings the one in which every number is shortest, no custom section stands, and a
/// section stands exactly where there is something in it.
///
/// # Errors
///
/// Want of memory alone.
pub fn encode(alloc: Global, module: &Module) -> Result<Vec<u8>, NoMemory>
    ensures bytes { IfOk result (λ found. found.items ≡ encoded «module».now) }
{
    let mut out = Vec::from_slice(alloc, &HEADER)?;
    list::<FuncTypes>(alloc, 1, module.types.as_slice(), &mut out)?;
    list::<Imports>(alloc, 2, module.imports.as_slice(), &mut out)?;
    list::<Index>(alloc, 3, module.functions.as_slice(), &mut out)?;
    list::<Tables>(alloc, 4, module.tables.as_slice(), &mut out)?;
    list::<Ranges>(alloc, 5, module.memories.as_slice(), &mut out)?;
    list::<Globals>(alloc, 6, module.globals.as_slice(), &mut out)?;
    list::<Exports>(alloc, 7, module.exports.as_slice(), &mut out)?;
    start(alloc, module.start, &mut out)?;
    list::<Elements>(alloc, 9, module.elements.as_slice(), &mut out)?;
    list::<Codes>(alloc, 10, module.codes.as_slice(), &mut out)?;
    list::<Segments>(alloc, 11, module.segments.as_slice(), &mut out)?;
    Ok(out)
}

/// Appends a section of these items, where there are any.
fn list<W: Written>(
    alloc: Global,
    id: u8,
    values: &[W::Value],
    out: &mut Vec<u8>,
) -> Result<(), NoMemory>
    ensures bytes { OnOk result (out.new.items ≡ out.old.items ++ section id (filled W.spell values.now)) }
{
    if values.is_empty() {
        return Ok(());
    }
    let mut inside = Vec::new(alloc);
    vector::<W>(alloc, values, &mut inside)?;
    out.push(id)?;
    text(inside.as_slice(), out)
}

/// Appends the section of the start function, where there is one.
fn start(alloc: Global, function: Option<u32>, out: &mut Vec<u8>) -> Result<(), NoMemory>
    ensures bytes { OnOk result (out.new.items ≡ out.old.items ++ section 8 (option_map number function)) }
{
    let Some(index) = function else {
        return Ok(());
    };
    let mut inside = Vec::new(alloc);
    word(index, &mut inside)?;
    out.push(8)?;
    text(inside.as_slice(), out)
}
