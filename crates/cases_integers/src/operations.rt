//! Operations on integers by their names.
use cases::{CaseFault, Words};
use wa_num::{binary32, binary64, compare32, compare64, convert, test32, test64, unary32, unary64};

/// The names of the operations and their opcodes (Core 1.0, "Numeric Instructions", and its sign extensions).
const OPERATIONS: [(&str, u8); 66] = [
    ("i32.eqz", 0x45),
    ("i32.eq", 0x46),
    ("i32.ne", 0x47),
    ("i32.lt_s", 0x48),
    ("i32.lt_u", 0x49),
    ("i32.gt_s", 0x4A),
    ("i32.gt_u", 0x4B),
    ("i32.le_s", 0x4C),
    ("i32.le_u", 0x4D),
    ("i32.ge_s", 0x4E),
    ("i32.ge_u", 0x4F),
    ("i64.eqz", 0x50),
    ("i64.eq", 0x51),
    ("i64.ne", 0x52),
    ("i64.lt_s", 0x53),
    ("i64.lt_u", 0x54),
    ("i64.gt_s", 0x55),
    ("i64.gt_u", 0x56),
    ("i64.le_s", 0x57),
    ("i64.le_u", 0x58),
    ("i64.ge_s", 0x59),
    ("i64.ge_u", 0x5A),
    ("i32.clz", 0x67),
    ("i32.ctz", 0x68),
    ("i32.popcnt", 0x69),
    ("i32.add", 0x6A),
    ("i32.sub", 0x6B),
    ("i32.mul", 0x6C),
    ("i32.div_s", 0x6D),
    ("i32.div_u", 0x6E),
    ("i32.rem_s", 0x6F),
    ("i32.rem_u", 0x70),
    ("i32.and", 0x71),
    ("i32.or", 0x72),
    ("i32.xor", 0x73),
    ("i32.shl", 0x74),
    ("i32.shr_s", 0x75),
    ("i32.shr_u", 0x76),
    ("i32.rotl", 0x77),
    ("i32.rotr", 0x78),
    ("i64.clz", 0x79),
    ("i64.ctz", 0x7A),
    ("i64.popcnt", 0x7B),
    ("i64.add", 0x7C),
    ("i64.sub", 0x7D),
    ("i64.mul", 0x7E),
    ("i64.div_s", 0x7F),
    ("i64.div_u", 0x80),
    ("i64.rem_s", 0x81),
    ("i64.rem_u", 0x82),
    ("i64.and", 0x83),
    ("i64.or", 0x84),
    ("i64.xor", 0x85),
    ("i64.shl", 0x86),
    ("i64.shr_s", 0x87),
    ("i64.shr_u", 0x88),
    ("i64.rotl", 0x89),
    ("i64.rotr", 0x8A),
    ("i32.wrap_i64", 0xA7),
    ("i64.extend_i32_s", 0xAC),
    ("i64.extend_i32_u", 0xAD),
    ("i32.extend8_s", 0xC0),
    ("i32.extend16_s", 0xC1),
    ("i64.extend8_s", 0xC2),
    ("i64.extend16_s", 0xC3),
    ("i64.extend32_s", 0xC4),
];

/// The answer of the operation of this name.
pub fn answer(name: &str, words: &mut Words<'_>) -> Result<String, CaseFault> {
    let row = OPERATIONS.iter().find(|row| row.0 == name);
    let opcode = row.ok_or(CaseFault::BadCase)?.1;
    match opcode {
        0x45..=0x5A => comparison(opcode, words),
        0x67..=0x8A => arithmetic(opcode, words),
        _ => conversion(opcode, words),
    }
}

// A test for zero, or a comparison.
fn comparison(opcode: u8, words: &mut Words<'_>) -> Result<String, CaseFault> {
    let holds = match opcode {
        0x45 => test32(words.value()?),
        0x50 => test64(words.value()?),
        0x46..=0x4F => compare32(opcode, words.value()?, words.value()?),
        0x51..=0x5A => compare64(opcode, words.value()?, words.value()?),
        _ => return Err(CaseFault::BadCase),
    };
    Ok(format!(in words.alloc; "{holds}")?)
}

// A count of bits, or an operation on two operands.
fn arithmetic(opcode: u8, words: &mut Words<'_>) -> Result<String, CaseFault> {
    match opcode {
        0x67..=0x69 => {
            let counted = unary32(opcode, words.value()?);
            Ok(format!(in words.alloc; "{counted}")?)
        }
        0x79..=0x7B => {
            let counted = unary64(opcode, words.value()?);
            Ok(format!(in words.alloc; "{counted}")?)
        }
        0x6A..=0x78 => {
            let result = binary32(opcode, words.value()?, words.value()?);
            words.answer(result)
        }
        0x7C..=0x8A => {
            let result = binary64(opcode, words.value()?, words.value()?);
            words.answer(result)
        }
        _ => Err(CaseFault::BadCase),
    }
}

// A conversion between widths, or a sign extension.
fn conversion(opcode: u8, words: &mut Words<'_>) -> Result<String, CaseFault> {
    let converted = match opcode {
        0xA7 => convert(0xA7, words.value()?),
        0xAC => convert(0xAC, u64::from(words.value::<u32>()?)),
        0xAD => convert(0xAD, u64::from(words.value::<u32>()?)),
        0xC0..=0xC1 => u64::from(unary32(opcode, words.value()?)),
        0xC2..=0xC4 => unary64(opcode, words.value()?),
        _ => return Err(CaseFault::BadCase),
    };
    Ok(format!(in words.alloc; "{converted}")?)
}
