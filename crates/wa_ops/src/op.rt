use crate::items::Items;

/// A type of WebAssembly values (Core 1.0, "Value Types").
#[derive(Clone, Copy, Debug, PartialEq, Eq)]
pub enum ValueType {
    I32,
    I64,
    F32,
    F64,
}

/// One instruction of flat code (Core 1.0, "Instructions"), with `else` and `end` as instructions of their own.
///
/// `Load`, `Store`, `Number` and `Float` keep the opcode. `Float` stands for every instruction on floats.
#[derive(Debug, Drop)]
pub enum Op {
    Unreachable,
    Nop,
    Block(Option<ValueType>),
    Loop(Option<ValueType>),
    If(Option<ValueType>),
    Else,
    End,
    Br(u32),
    BrIf(u32),
    BrTable { labels: Items<u32>, last: u32 },
    Return,
    Call(u32),
    CallIndirect(u32),
    Drop,
    Select,
    LocalGet(u32),
    LocalSet(u32),
    LocalTee(u32),
    GlobalGet(u32),
    GlobalSet(u32),
    Load { opcode: u8, align: u32, offset: u32 },
    Store { opcode: u8, align: u32, offset: u32 },
    MemorySize,
    MemoryGrow,
    I32Const(i32),
    I64Const(i64),
    Number(u8),
    Float(u8),
}
