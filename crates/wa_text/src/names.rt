//! The names of the instructions.
ghost use Rattle.std.specs.Prelude.{◌≡◌, map};
ghost use Rattle.wa_text.specs.Instructions.{instructions, opcode_in, shown};

/// A name and an opcode.
#[derive(Clone, Copy)]
struct Named(&'static [u8], u8);

const INSTRUCTIONS: [Named; 107] = [
    Named(b"unreachable", 0x00),
    Named(b"nop", 0x01),
    Named(b"block", 0x02),
    Named(b"loop", 0x03),
    Named(b"if", 0x04),
    Named(b"else", 0x05),
    Named(b"end", 0x0B),
    Named(b"br", 0x0C),
    Named(b"br_if", 0x0D),
    Named(b"br_table", 0x0E),
    Named(b"return", 0x0F),
    Named(b"call", 0x10),
    Named(b"drop", 0x1A),
    Named(b"select", 0x1B),
    Named(b"local.get", 0x20),
    Named(b"local.set", 0x21),
    Named(b"local.tee", 0x22),
    Named(b"global.get", 0x23),
    Named(b"global.set", 0x24),
    Named(b"i32.load", 0x28),
    Named(b"i64.load", 0x29),
    Named(b"i32.load8_s", 0x2C),
    Named(b"i32.load8_u", 0x2D),
    Named(b"i32.load16_s", 0x2E),
    Named(b"i32.load16_u", 0x2F),
    Named(b"i64.load8_s", 0x30),
    Named(b"i64.load8_u", 0x31),
    Named(b"i64.load16_s", 0x32),
    Named(b"i64.load16_u", 0x33),
    Named(b"i64.load32_s", 0x34),
    Named(b"i64.load32_u", 0x35),
    Named(b"i32.store", 0x36),
    Named(b"i64.store", 0x37),
    Named(b"i32.store8", 0x3A),
    Named(b"i32.store16", 0x3B),
    Named(b"i64.store8", 0x3C),
    Named(b"i64.store16", 0x3D),
    Named(b"i64.store32", 0x3E),
    Named(b"memory.size", 0x3F),
    Named(b"i32.const", 0x41),
    Named(b"i64.const", 0x42),
    Named(b"i32.eqz", 0x45),
    Named(b"i32.eq", 0x46),
    Named(b"i32.ne", 0x47),
    Named(b"i32.lt_s", 0x48),
    Named(b"i32.lt_u", 0x49),
    Named(b"i32.gt_s", 0x4A),
    Named(b"i32.gt_u", 0x4B),
    Named(b"i32.le_s", 0x4C),
    Named(b"i32.le_u", 0x4D),
    Named(b"i32.ge_s", 0x4E),
    Named(b"i32.ge_u", 0x4F),
    Named(b"i64.eqz", 0x50),
    Named(b"i64.eq", 0x51),
    Named(b"i64.ne", 0x52),
    Named(b"i64.lt_s", 0x53),
    Named(b"i64.lt_u", 0x54),
    Named(b"i64.gt_s", 0x55),
    Named(b"i64.gt_u", 0x56),
    Named(b"i64.le_s", 0x57),
    Named(b"i64.le_u", 0x58),
    Named(b"i64.ge_s", 0x59),
    Named(b"i64.ge_u", 0x5A),
    Named(b"i32.clz", 0x67),
    Named(b"i32.ctz", 0x68),
    Named(b"i32.popcnt", 0x69),
    Named(b"i32.add", 0x6A),
    Named(b"i32.sub", 0x6B),
    Named(b"i32.mul", 0x6C),
    Named(b"i32.div_s", 0x6D),
    Named(b"i32.div_u", 0x6E),
    Named(b"i32.rem_s", 0x6F),
    Named(b"i32.rem_u", 0x70),
    Named(b"i32.and", 0x71),
    Named(b"i32.or", 0x72),
    Named(b"i32.xor", 0x73),
    Named(b"i32.shl", 0x74),
    Named(b"i32.shr_s", 0x75),
    Named(b"i32.shr_u", 0x76),
    Named(b"i32.rotl", 0x77),
    Named(b"i32.rotr", 0x78),
    Named(b"i64.clz", 0x79),
    Named(b"i64.ctz", 0x7A),
    Named(b"i64.popcnt", 0x7B),
    Named(b"i64.add", 0x7C),
    Named(b"i64.sub", 0x7D),
    Named(b"i64.mul", 0x7E),
    Named(b"i64.div_s", 0x7F),
    Named(b"i64.div_u", 0x80),
    Named(b"i64.rem_s", 0x81),
    Named(b"i64.rem_u", 0x82),
    Named(b"i64.and", 0x83),
    Named(b"i64.or", 0x84),
    Named(b"i64.xor", 0x85),
    Named(b"i64.shl", 0x86),
    Named(b"i64.shr_s", 0x87),
    Named(b"i64.shr_u", 0x88),
    Named(b"i64.rotl", 0x89),
    Named(b"i64.rotr", 0x8A),
    Named(b"i32.wrap_i64", 0xA7),
    Named(b"i64.extend_i32_s", 0xAC),
    Named(b"i64.extend_i32_u", 0xAD),
    Named(b"i32.extend8_s", 0xC0),
    Named(b"i32.extend16_s", 0xC1),
    Named(b"i64.extend8_s", 0xC2),
    Named(b"i64.extend16_s", 0xC3),
    Named(b"i64.extend32_s", 0xC4),
];

/// The opcode of a name in a table.
fn opcode_in(table: &[Named], name: &[u8]) -> Option<u8>
    ensures opcode { result ≡ opcode_in (map shown table.now) name.now }
{
    for row in table {
        if row.0 == name {
            return Some(row.1);
        }
    }
    None
}

/// The opcode of an instruction's name.
#[tactic(auto, unfolding(crate::specs::Instructions::instructions))]
pub(crate) fn opcode_of(name: &[u8]) -> Option<u8>
    ensures opcode { result ≡ opcode_in instructions name.now }
{
    opcode_in(&INSTRUCTIONS, name)
}
