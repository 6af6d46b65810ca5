ghost use Rattle.std.specs.Prelude.{◌≡◌, ◌<◌};
ghost use Rattle.wa_ops.specs.Accesses.{load_type, load_width, store_type, store_width, number_takes, number_gives};
ghost use Rattle.wa_ops.specs.Opcodes.{is_load, is_store, is_number};
ghost use Rattle.wa_validate.specs.Slots.{operands_of};

use wa_ops::ValueType;

/// Whether an opcode is that of a load of an integer.
pub(crate) fn is_load(opcode: u8) -> bool
    ensures load { result ≡ is_load opcode }
{
    matches!(opcode, 0x28 | 0x29 | 0x2C..=0x35)
}

pub(crate) fn is_store(opcode: u8) -> bool
    ensures store { result ≡ is_store opcode }
{
    matches!(opcode, 0x36 | 0x37 | 0x3A..=0x3E)
}

pub(crate) fn is_number(opcode: u8) -> bool
    ensures number { result ≡ is_number opcode }
{
    matches!(opcode, 0x45..=0x5A | 0x67..=0x8A | 0xA7 | 0xAC | 0xAD | 0xC0..=0xC4)
}

pub(crate) fn load_type(opcode: u8) -> ValueType
    ensures kind { result ≡ load_type opcode }
{
    match opcode {
        0x29 | 0x30..=0x35 => ValueType::I64,
        _ => ValueType::I32,
    }
}

/// The bytes that a load reads.
pub(crate) fn load_width(opcode: u8) -> u32
    ensures width { result ≡ load_width opcode }
    ensures small { result < 16 }
{
    match opcode {
        0x28 => 4,
        0x29 => 8,
        0x2C | 0x2D | 0x30 | 0x31 => 1,
        0x2E | 0x2F | 0x32 | 0x33 => 2,
        _ => 4,
    }
}

pub(crate) fn store_type(opcode: u8) -> ValueType
    ensures kind { result ≡ store_type opcode }
{
    match opcode {
        0x37 | 0x3C..=0x3E => ValueType::I64,
        _ => ValueType::I32,
    }
}

/// The bytes that a store writes.
pub(crate) fn store_width(opcode: u8) -> u32
    ensures width { result ≡ store_width opcode }
    ensures small { result < 16 }
{
    match opcode {
        0x36 => 4,
        0x37 => 8,
        0x3A | 0x3C => 1,
        0x3B | 0x3D => 2,
        _ => 4,
    }
}

/// The type of a numeric instruction's operands, and whether there are two.
pub(crate) fn number_takes(opcode: u8) -> (ValueType, bool)
    ensures takes { number_takes opcode ≡ operands_of result }
{
    match opcode {
        0x45 | 0x67..=0x69 | 0xAC | 0xAD | 0xC0..=0xC1 => (ValueType::I32, false),
        0x50 | 0x79..=0x7B | 0xA7 | 0xC2..=0xC4 => (ValueType::I64, false),
        0x46..=0x4F | 0x6A..=0x78 => (ValueType::I32, true),
        _ => (ValueType::I64, true),
    }
}

pub(crate) fn number_gives(opcode: u8) -> ValueType
    ensures kind { result ≡ number_gives opcode }
{
    match opcode {
        0x79..=0x8A | 0xAC | 0xAD | 0xC2..=0xC4 => ValueType::I64,
        _ => ValueType::I32,
    }
}
