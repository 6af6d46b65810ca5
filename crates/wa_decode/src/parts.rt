ghost use Rattle.std.specs.Prelude.{◌≡◌};
ghost use Rattle.wa_decode.specs.ModuleReading.{element_at, export_at, global_at, import_at, item_at, kind_at};
ghost use Rattle.wa_decode.specs.ModuleReading.{segment_at, start_at};
ghost use Rattle.wa_decode.specs.Reading.{Gives};

use crate::codes::expression;
use crate::fault::DecodeFault;
use crate::numbers::number;
use crate::types::{global_type, limits, table_type};
use crate::vectors::{Index, Spelled, copied_text, vector};
use std::alloc::Global;
use wa_ops::{Element, Import, ImportItem, ModuleExport, ModuleGlobal, Segment};

/// An import.
pub(crate) struct Imports;

impl Spelled for Imports {
    type Value = Import;

    ghost at = { import_at };

    fn read(alloc: Global, bytes: &[u8]) -> Result<(Import, &[u8]), DecodeFault> {
        import(alloc, bytes)
    }
}

#[tactic(auto, unfolding(crate::specs::ModuleReading::import_at))]
fn import(alloc: Global, bytes: &[u8]) -> Result<(Import, &[u8]), DecodeFault>
    ensures { Gives (λ x. (x.0, x.1.now)) result (import_at bytes.now) }
{
    let (module, rest) = copied_text(alloc, bytes)?;
    let (name, rest) = copied_text(alloc, rest)?;
    let (item, rest) = import_item(rest)?;
    Ok((Import { module, name, item }, rest))
}

#[tactic(auto, unfolding(crate::specs::ModuleReading::item_at))]
fn import_item(bytes: &[u8]) -> Result<(ImportItem, &[u8]), DecodeFault>
    ensures { Gives (λ x. (x.0, x.1.now)) result (item_at bytes.now) }
{
    let [byte, rest @ ..] = bytes else {
        return Err(DecodeFault::Malformed);
    };
    match *byte {
        0x00 => {
            let (index, rest) = number(rest)?;
            Ok((ImportItem::Function(index), rest))
        }
        0x01 => {
            let (limits, rest) = table_type(rest)?;
            Ok((ImportItem::Table(limits), rest))
        }
        0x02 => {
            let (limits, rest) = limits(rest)?;
            Ok((ImportItem::Memory(limits), rest))
        }
        0x03 => {
            let ((kind, mutable), rest) = global_type(rest)?;
            Ok((ImportItem::Global(kind, mutable), rest))
        }
        _ => Err(DecodeFault::Malformed),
    }
}

/// A global.
pub(crate) struct Globals;

impl Spelled for Globals {
    type Value = ModuleGlobal;

    ghost at = { global_at };

    fn read(alloc: Global, bytes: &[u8]) -> Result<(ModuleGlobal, &[u8]), DecodeFault> {
        global(alloc, bytes)
    }
}

#[tactic(auto, unfolding(crate::specs::ModuleReading::global_at))]
fn global(alloc: Global, bytes: &[u8]) -> Result<(ModuleGlobal, &[u8]), DecodeFault>
    ensures { Gives (λ x. (x.0, x.1.now)) result (global_at bytes.now) }
{
    let ((kind, mutable), rest) = global_type(bytes)?;
    let (init, rest) = expression(alloc, rest)?;
    Ok((
        ModuleGlobal {
            kind,
            mutable,
            init,
        },
        rest,
    ))
}

/// An export.
pub(crate) struct Exports;

impl Spelled for Exports {
    type Value = ModuleExport;

    ghost at = { export_at };

    fn read(alloc: Global, bytes: &[u8]) -> Result<(ModuleExport, &[u8]), DecodeFault> {
        export(alloc, bytes)
    }
}

#[tactic(auto, unfolding(crate::specs::ModuleReading::export_at))]
fn export(alloc: Global, bytes: &[u8]) -> Result<(ModuleExport, &[u8]), DecodeFault>
    ensures { Gives (λ x. (x.0, x.1.now)) result (export_at bytes.now) }
{
    let (name, rest) = copied_text(alloc, bytes)?;
    let (kind, rest) = export_kind(rest)?;
    let (index, rest) = number(rest)?;
    Ok((ModuleExport { name, kind, index }, rest))
}

#[tactic(auto, unfolding(crate::specs::ModuleReading::kind_at))]
fn export_kind(bytes: &[u8]) -> Result<(u8, &[u8]), DecodeFault>
    ensures { Gives (λ x. (x.0, x.1.now)) result (kind_at bytes.now) }
{
    let [kind, rest @ ..] = bytes else {
        return Err(DecodeFault::Malformed);
    };
    if *kind > 3 {
        return Err(DecodeFault::Malformed);
    }
    Ok((*kind, rest))
}

/// An element segment.
pub(crate) struct Elements;

impl Spelled for Elements {
    type Value = Element;

    ghost at = { element_at };

    fn read(alloc: Global, bytes: &[u8]) -> Result<(Element, &[u8]), DecodeFault> {
        element(alloc, bytes)
    }
}

#[tactic(auto, unfolding(crate::specs::ModuleReading::element_at))]
fn element(alloc: Global, bytes: &[u8]) -> Result<(Element, &[u8]), DecodeFault>
    ensures { Gives (λ x. (x.0, x.1.now)) result (element_at bytes.now) }
{
    let (table, rest) = number(bytes)?;
    let (offset, rest) = expression(alloc, rest)?;
    let (functions, rest) = vector::<Index>(alloc, rest)?;
    Ok((
        Element {
            table,
            offset,
            functions,
        },
        rest,
    ))
}

/// A data segment.
pub(crate) struct Segments;

impl Spelled for Segments {
    type Value = Segment;

    ghost at = { segment_at };

    fn read(alloc: Global, bytes: &[u8]) -> Result<(Segment, &[u8]), DecodeFault> {
        segment(alloc, bytes)
    }
}

#[tactic(auto, unfolding(crate::specs::ModuleReading::segment_at))]
fn segment(alloc: Global, bytes: &[u8]) -> Result<(Segment, &[u8]), DecodeFault>
    ensures { Gives (λ x. (x.0, x.1.now)) result (segment_at bytes.now) }
{
    let (memory, rest) = number(bytes)?;
    let (offset, rest) = expression(alloc, rest)?;
    let (bytes, rest) = copied_text(alloc, rest)?;
    Ok((
        Segment {
            memory,
            offset,
            bytes,
        },
        rest,
    ))
}

/// The function that a start section names.
#[tactic(auto, unfolding(crate::specs::ModuleReading::start_at))]
pub(crate) fn start(bytes: &[u8]) -> Result<(Option<u32>, &[u8]), DecodeFault>
    ensures { Gives (λ x. (x.0, x.1.now)) result (start_at bytes.now) }
{
    let (index, rest) = number(bytes)?;
    Ok((Some(index), rest))
}
