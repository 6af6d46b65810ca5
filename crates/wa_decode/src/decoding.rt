ghost use Rattle.std.specs.Prelude.{◌≡◌, IfOk, IsErrOf};
ghost use Rattle.wa_decode.specs.Grammar.{NumberLengths};
ghost use Rattle.wa_decode.specs.ModuleReading.{ModuleReads, behind, module_at, parts_at};
ghost use Rattle.wa_decode.specs.Modules.{OneModule, Spells, header};
ghost use Rattle.wa_decode.specs.Reading.{Gives};
ghost use Rattle.wa_decode.specs.Views.{views};
ghost use Rattle.wa_ops.specs.Soundness.{IsSound};
ghost use Rattle.wa_ops.specs.declared.modules.Module.{Module as SpelledModule};

use crate::codes::Codes;
use crate::fault::DecodeFault;
use crate::parts::{Elements, Exports, Globals, Imports, Segments};
use crate::sections::{RawSection, highest, part, sections, start_part};
use crate::types::{FuncTypes, Ranges, Tables};
use crate::vectors::Index;
use std::alloc::Global;
use wa_ops::Module;

/// The magic number and the version that each module begins with.
const HEADER: [u8; 8] = [0x00, 0x61, 0x73, 0x6D, 0x01, 0x00, 0x00, 0x00];

/// The module that the bytes spell.
///
/// # Errors
///
/// `Malformed` exactly where the bytes spell no module.
pub fn decode(alloc: Global, bytes: &[u8]) -> Result<Module, DecodeFault>
    ensures found { IfOk result (λ m. Spells m bytes.now) }
    ensures sound { IfOk result IsSound }
    ensures malformed { IsErrOf result DecodeFault.Malformed → (m : SpelledModule) → Spells m bytes.now → ⊥ }
{
    module(alloc, bytes)
}

#[tactic(auto, unfolding(crate::specs::ModuleReading::module_at))]
fn module(alloc: Global, bytes: &[u8]) -> Result<Module, DecodeFault>
    ensures { Gives (λ m. m) result (module_at bytes.now) }
{
    let rest = headed(bytes)?;
    let sections = sections(alloc, rest)?;
    highest(&sections)?;
    parts(alloc, &sections)
}

/// The bytes behind the magic number and the version.
fn headed(bytes: &[u8]) -> Result<&[u8], DecodeFault>
    ensures { Gives (λ rest. rest.now) result (behind header bytes.now) }
{
    match bytes.strip_prefix(&HEADER) {
        Some(rest) => Ok(rest),
        None => Err(DecodeFault::Malformed),
    }
}

/// The module whose parts stand in these sections.
#[tactic(auto, unfolding(crate::specs::ModuleReading::parts_at))]
fn parts(alloc: Global, sections: &[RawSection<'_>]) -> Result<Module, DecodeFault>
    ensures { Gives (λ m. m) result (parts_at (views sections.now)) }
{
    let types = part::<FuncTypes>(alloc, 1, sections)?;
    let imports = part::<Imports>(alloc, 2, sections)?;
    let functions = part::<Index>(alloc, 3, sections)?;
    let tables = part::<Tables>(alloc, 4, sections)?;
    let memories = part::<Ranges>(alloc, 5, sections)?;
    let globals = part::<Globals>(alloc, 6, sections)?;
    let exports = part::<Exports>(alloc, 7, sections)?;
    let start = start_part(sections)?;
    let elements = part::<Elements>(alloc, 9, sections)?;
    let codes = part::<Codes>(alloc, 10, sections)?;
    let segments = part::<Segments>(alloc, 11, sections)?;
    if codes.len() != functions.len() {
        return Err(DecodeFault::Malformed);
    }
    Ok(Module {
        types,
        imports,
        functions,
        tables,
        memories,
        globals,
        exports,
        start,
        elements,
        codes,
        segments,
    })
}

/// The law that no bytes spell two modules.
pub fn one_module()
    ensures law { OneModule }
{}

/// The law that reading as a function finds a module exactly where the bytes spell it.
pub fn module_reads()
    ensures law { ModuleReads }
{}

/// The law that an N-bit number takes at most ceil(N / 7) bytes.
pub fn number_lengths()
    ensures law { NumberLengths }
{}
