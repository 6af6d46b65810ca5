//! What the sections have in them.
ghost use Rattle.std.specs.Prelude.{◌≡◌, ◌++◌, OnOk};
ghost use Rattle.wa_encode.specs.Modules.{body, code, element, export, global, import, item, locals, segment};

use crate::instructions::expression;
use crate::numbers::word;
use crate::types::{global_type, limits, table, type_byte};
use crate::vectors::{Index, Written, text, vector};
use std::alloc::Global;
use wa_ops::{
    Code, Element, Import, ImportItem, ModuleExport, ModuleGlobal, NoMemory, Segment, ValueType,
};

/// An import.
pub(crate) struct Imports;

impl Written for Imports {
    type Value = Import;

    ghost spell = { import };

    fn write(_alloc: Global, value: &Import, out: &mut Vec<u8>) -> Result<(), NoMemory> {
        text(value.module.as_slice(), out)?;
        text(value.name.as_slice(), out)?;
        item(value.item, out)
    }
}

/// Appends the kind of an import.
fn item(kind: ImportItem, out: &mut Vec<u8>) -> Result<(), NoMemory>
    ensures bytes { OnOk result (out.new.items ≡ out.old.items ++ item kind) }
{
    match kind {
        ImportItem::Function(index) => {
            out.push(0x00)?;
            word(index, out)
        }
        ImportItem::Table(range) => {
            out.push(0x01)?;
            table(range, out)
        }
        ImportItem::Memory(range) => {
            out.push(0x02)?;
            limits(range, out)
        }
        ImportItem::Global(content, mutable) => {
            out.push(0x03)?;
            global_type(content, mutable, out)
        }
    }
}

/// A global.
pub(crate) struct Globals;

impl Written for Globals {
    type Value = ModuleGlobal;

    ghost spell = { global };

    fn write(alloc: Global, value: &ModuleGlobal, out: &mut Vec<u8>) -> Result<(), NoMemory> {
        global_type(value.kind, value.mutable, out)?;
        expression(alloc, value.init.as_slice(), out)
    }
}

/// An export.
pub(crate) struct Exports;

impl Written for Exports {
    type Value = ModuleExport;

    ghost spell = { export };

    fn write(_alloc: Global, value: &ModuleExport, out: &mut Vec<u8>) -> Result<(), NoMemory> {
        text(value.name.as_slice(), out)?;
        out.push(value.kind)?;
        word(value.index, out)
    }
}

/// An element segment.
pub(crate) struct Elements;

impl Written for Elements {
    type Value = Element;

    ghost spell = { element };

    fn write(alloc: Global, value: &Element, out: &mut Vec<u8>) -> Result<(), NoMemory> {
        word(value.table, out)?;
        expression(alloc, value.offset.as_slice(), out)?;
        vector::<Index>(alloc, value.functions.as_slice(), out)
    }
}

/// A run of locals of one type.
struct LocalRuns;

impl Written for LocalRuns {
    type Value = (u32, ValueType);

    ghost spell = { locals };

    fn write(_alloc: Global, value: &(u32, ValueType), out: &mut Vec<u8>) -> Result<(), NoMemory> {
        word(value.0, out)?;
        out.push(type_byte(value.1))?;
        Ok(())
    }
}

/// A function's body, behind its size.
pub(crate) struct Codes;

impl Written for Codes {
    type Value = Code;

    ghost spell = { code };

    fn write(alloc: Global, value: &Code, out: &mut Vec<u8>) -> Result<(), NoMemory> {
        let mut body = Vec::new(alloc);
        function_body(alloc, value, &mut body)?;
        text(body.as_slice(), out)
    }
}

/// Appends a function's locals and its code.
fn function_body(alloc: Global, code: &Code, out: &mut Vec<u8>) -> Result<(), NoMemory>
    ensures bytes { OnOk result (out.new.items ≡ out.old.items ++ body code.now) }
{
    vector::<LocalRuns>(alloc, code.locals.as_slice(), out)?;
    expression(alloc, code.ops.as_slice(), out)
}

/// A data segment.
pub(crate) struct Segments;

impl Written for Segments {
    type Value = Segment;

    ghost spell = { segment };

    fn write(alloc: Global, value: &Segment, out: &mut Vec<u8>) -> Result<(), NoMemory> {
        word(value.memory, out)?;
        expression(alloc, value.offset.as_slice(), out)?;
        text(value.bytes.as_slice(), out)
    }
}
