use crate::items::Items;
use crate::op::{Op, ValueType};

/// A module (Core 1.0, "Modules"). A section that is absent leaves its list empty; custom sections leave no trace.
#[derive(Debug, Drop)]
pub struct Module {
    pub types: Items<FuncType>,
    pub imports: Items<Import>,
    /// The type index of each function that the module defines.
    pub functions: Items<u32>,
    pub tables: Items<Limits>,
    pub memories: Items<Limits>,
    pub globals: Items<ModuleGlobal>,
    pub exports: Items<ModuleExport>,
    pub start: Option<u32>,
    pub elements: Items<Element>,
    /// The body of each function that the module defines, in the order of `functions`.
    pub codes: Items<Code>,
    pub segments: Items<Segment>,
}

/// The type of a function: what it takes and what it gives.
#[derive(Debug, Drop)]
pub struct FuncType {
    pub parameters: Items<ValueType>,
    pub results: Items<ValueType>,
}

/// What a module takes from outside, by two names. Names are plain bytes.
#[derive(Debug, Drop)]
pub struct Import {
    pub module: Items<u8>,
    pub name: Items<u8>,
    pub item: ImportItem,
}

/// The kind of an import: a function by its type index, a table, a memory, or a global and whether it is mutable.
#[derive(Clone, Copy, Debug, PartialEq, Eq)]
pub enum ImportItem {
    Function(u32),
    Table(Limits),
    Memory(Limits),
    Global(ValueType, bool),
}

/// The least size and, if there is one, the greatest: of a table in elements, of a memory in pages.
#[derive(Clone, Copy, Debug, PartialEq, Eq)]
pub struct Limits {
    pub min: u32,
    pub max: Option<u32>,
}

/// A global that the module defines, with the expression of its first value.
#[derive(Debug, Drop)]
pub struct ModuleGlobal {
    pub kind: ValueType,
    pub mutable: bool,
    pub init: Items<Op>,
}

/// What a module hands out by a name: kind 0 is a function, 1 a table, 2 a memory, 3 a global.
#[derive(Debug, Drop)]
pub struct ModuleExport {
    pub name: Items<u8>,
    pub kind: u8,
    pub index: u32,
}

/// Functions that are put into a table, from the place that the expression gives.
#[derive(Debug, Drop)]
pub struct Element {
    pub table: u32,
    pub offset: Items<Op>,
    pub functions: Items<u32>,
}

/// A function's body: its locals as runs of one type, and its flat code up to its own `end`.
#[derive(Debug, Drop)]
pub struct Code {
    pub locals: Items<(u32, ValueType)>,
    pub ops: Items<Op>,
}

/// Bytes that are put into a memory, from the place that the expression gives.
#[derive(Debug, Drop)]
pub struct Segment {
    pub memory: u32,
    pub offset: Items<Op>,
    pub bytes: Items<u8>,
}
