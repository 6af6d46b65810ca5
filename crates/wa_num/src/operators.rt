ghost use Rattle.std.specs.Prelude.{◌≡◌};
ghost use Rattle.wa_num.specs.Operators.{binary_at, comparison_at, conversion_at, unary_at};

/// An operation on two operands.
#[derive(Clone, Copy)]
pub(crate) enum Binary {
    Add,
    Sub,
    Mul,
    DivS,
    DivU,
    RemS,
    RemU,
    And,
    Or,
    Xor,
    Shl,
    ShrS,
    ShrU,
    Rotl,
    Rotr,
}

/// An operation on one operand.
#[derive(Clone, Copy)]
pub(crate) enum Unary {
    Clz,
    Ctz,
    Popcnt,
    Extend8,
    Extend16,
    Extend32,
}

/// A comparison of two operands.
#[derive(Clone, Copy)]
pub(crate) enum Comparison {
    Eq,
    Ne,
    LtS,
    LtU,
    GtS,
    GtU,
    LeS,
    LeU,
    GeS,
    GeU,
}

/// A change of an operand's width.
#[derive(Clone, Copy)]
pub(crate) enum Conversion {
    Wrap,
    ExtendS,
    ExtendU,
}

#[inline(always)]
pub(crate) fn binary_of(opcode: u8) -> Binary
    ensures operator { result ≡ binary_at opcode }
{
    match opcode {
        0x6A | 0x7C => Binary::Add,
        0x6B | 0x7D => Binary::Sub,
        0x6C | 0x7E => Binary::Mul,
        0x6D | 0x7F => Binary::DivS,
        0x6E | 0x80 => Binary::DivU,
        0x6F | 0x81 => Binary::RemS,
        0x70 | 0x82 => Binary::RemU,
        0x71 | 0x83 => Binary::And,
        0x72 | 0x84 => Binary::Or,
        0x73 | 0x85 => Binary::Xor,
        0x74 | 0x86 => Binary::Shl,
        0x75 | 0x87 => Binary::ShrS,
        0x76 | 0x88 => Binary::ShrU,
        0x77 | 0x89 => Binary::Rotl,
        _ => Binary::Rotr,
    }
}

#[inline(always)]
pub(crate) fn unary_of(opcode: u8) -> Unary
    ensures operator { result ≡ unary_at opcode }
{
    match opcode {
        0x67 | 0x79 => Unary::Clz,
        0x68 | 0x7A => Unary::Ctz,
        0xC0 | 0xC2 => Unary::Extend8,
        0xC1 | 0xC3 => Unary::Extend16,
        0xC4 => Unary::Extend32,
        _ => Unary::Popcnt,
    }
}

#[inline(always)]
pub(crate) fn comparison_of(opcode: u8) -> Comparison
    ensures operator { result ≡ comparison_at opcode }
{
    match opcode {
        0x46 | 0x51 => Comparison::Eq,
        0x47 | 0x52 => Comparison::Ne,
        0x48 | 0x53 => Comparison::LtS,
        0x49 | 0x54 => Comparison::LtU,
        0x4A | 0x55 => Comparison::GtS,
        0x4B | 0x56 => Comparison::GtU,
        0x4C | 0x57 => Comparison::LeS,
        0x4D | 0x58 => Comparison::LeU,
        0x4E | 0x59 => Comparison::GeS,
        _ => Comparison::GeU,
    }
}

#[inline(always)]
pub(crate) fn conversion_of(opcode: u8) -> Conversion
    ensures operator { result ≡ conversion_at opcode }
{
    match opcode {
        0xA7 => Conversion::Wrap,
        0xAC => Conversion::ExtendS,
        _ => Conversion::ExtendU,
    }
}
