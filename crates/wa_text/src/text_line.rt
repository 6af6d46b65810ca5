//! The lines of a text.
use wa_ops::{Items, Op, ValueType};

/// The first value of a global, with its type.
#[derive(Clone, Copy, Debug, PartialEq, Eq)]
pub enum Constant {
    I32(i32),
    I64(i64),
}

/// A line of the assembler's text.
#[derive(Debug, Drop)]
pub enum TextLine {
    Import { name: Items<u8> },
    /// The least size of the memory, in pages.
    Memory { min: u32 },
    Global { mutable: bool, value: Constant },
    Data { offset: u32, bytes: Items<u8> },
    /// `func hook`
    Hook,
    /// `func cbak`
    Cbak,
    Local { kind: ValueType },
    /// An instruction but `call`.
    Plain(Op),
    /// A call of an imported name.
    Call { name: Items<u8> },
    Close,
    Done,
}
