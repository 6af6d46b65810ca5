ghost use Rattle.std.specs.Int.{w32, w64};
ghost use Rattle.std.specs.Prelude.{◌≡◌, ◌^◌, ◌<◌, IsTrue, ◌⊎◌};
ghost use Rattle.wa_num.specs.Integers.{binary, comparison, conversion, divide_signed, unary, zero_test};
ghost use Rattle.wa_num.specs.Operators.{binary_at, comparison_at, conversion_at, unary_at};
ghost use Rattle.wa_ops.specs.Opcodes.{among, is_unary32, is_unary64};

use crate::operators::{
    Binary, Comparison, Conversion, Unary, binary_of, comparison_of, conversion_of, unary_of,
};
use hk_base::Trap;

/// The operation of `i32` with opcode 6A to 78.
///
/// # Errors
///
/// `DivideByZero` from a division or a remainder by 0; `DivideOverflow` from `div_s` of the least number by -1.
#[inline(always)]
pub fn binary32(opcode: u8, a: u32, b: u32) -> Result<u32, Trap>
    requires group { IsTrue (among 0x6A 0x78 opcode) }
    ensures operation { result ≡ binary w32 (binary_at opcode) a b }
{
    match binary_of(opcode) {
        Binary::Add => Ok(a.wrapping_add(b)),
        Binary::Sub => Ok(a.wrapping_sub(b)),
        Binary::Mul => Ok(a.wrapping_mul(b)),
        Binary::DivS => divide_signed32(a, b),
        Binary::DivU if b == 0 => Err(Trap::DivideByZero),
        Binary::DivU => Ok(a / b),
        Binary::RemS if b == 0 => Err(Trap::DivideByZero),
        Binary::RemS => Ok(
            a.cast_signed()
                .wrapping_rem(b.cast_signed())
                .cast_unsigned(),
        ),
        Binary::RemU if b == 0 => Err(Trap::DivideByZero),
        Binary::RemU => Ok(a % b),
        Binary::And => Ok(a & b),
        Binary::Or => Ok(a | b),
        Binary::Xor => Ok(a ^ b),
        Binary::Shl => Ok(a << (b % 32)),
        Binary::ShrS => Ok((a.cast_signed() >> (b % 32)).cast_unsigned()),
        Binary::ShrU => Ok(a >> (b % 32)),
        Binary::Rotl => Ok(a.rotate_left(b % 32)),
        Binary::Rotr => Ok(a.rotate_right(b % 32)),
    }
}

#[inline(always)]
fn divide_signed32(a: u32, b: u32) -> Result<u32, Trap>
    ensures quotient { result ≡ divide_signed w32 a b }
{
    if b == 0 {
        return Err(Trap::DivideByZero);
    }
    if a == 0x8000_0000 && b == u32::MAX {
        return Err(Trap::DivideOverflow);
    }
    Ok((a.cast_signed() / b.cast_signed()).cast_unsigned())
}

/// The operation of `i64` with opcode 7C to 8A.
///
/// # Errors
///
/// `DivideByZero` from a division or a remainder by 0; `DivideOverflow` from `div_s` of the least number by -1.
#[inline(always)]
pub fn binary64(opcode: u8, a: u64, b: u64) -> Result<u64, Trap>
    requires group { IsTrue (among 0x7C 0x8A opcode) }
    ensures operation { result ≡ binary w64 (binary_at opcode) a b }
{
    match binary_of(opcode) {
        Binary::Add => Ok(a.wrapping_add(b)),
        Binary::Sub => Ok(a.wrapping_sub(b)),
        Binary::Mul => Ok(a.wrapping_mul(b)),
        Binary::DivS => divide_signed64(a, b),
        Binary::DivU if b == 0 => Err(Trap::DivideByZero),
        Binary::DivU => Ok(a / b),
        Binary::RemS if b == 0 => Err(Trap::DivideByZero),
        Binary::RemS => Ok(
            a.cast_signed()
                .wrapping_rem(b.cast_signed())
                .cast_unsigned(),
        ),
        Binary::RemU if b == 0 => Err(Trap::DivideByZero),
        Binary::RemU => Ok(a % b),
        Binary::And => Ok(a & b),
        Binary::Or => Ok(a | b),
        Binary::Xor => Ok(a ^ b),
        Binary::Shl => Ok(a << (b % 64)),
        Binary::ShrS => Ok((a.cast_signed() >> (b % 64)).cast_unsigned()),
        Binary::ShrU => Ok(a >> (b % 64)),
        Binary::Rotl => Ok(a.rotate_left((b % 64) as u32)),
        Binary::Rotr => Ok(a.rotate_right((b % 64) as u32)),
    }
}

#[inline(always)]
fn divide_signed64(a: u64, b: u64) -> Result<u64, Trap>
    ensures quotient { result ≡ divide_signed w64 a b }
{
    if b == 0 {
        return Err(Trap::DivideByZero);
    }
    if a == 0x8000_0000_0000_0000 && b == u64::MAX {
        return Err(Trap::DivideOverflow);
    }
    Ok((a.cast_signed() / b.cast_signed()).cast_unsigned())
}

/// `clz`, `ctz` or `popcnt` of `i32`, by opcode 67 to 69; `extend8_s` or `extend16_s`, by opcode C0 or C1.
#[inline(always)]
pub fn unary32(opcode: u8, a: u32) -> u32
    requires group { IsTrue (is_unary32 opcode) }
    ensures operation { result ≡ unary w32 (unary_at opcode) a }
{
    match unary_of(opcode) {
        Unary::Clz => a.leading_zeros(),
        Unary::Ctz => a.trailing_zeros(),
        Unary::Popcnt => a.count_ones(),
        Unary::Extend8 => i32::from(((a % 0x100) as u8).cast_signed()).cast_unsigned(),
        Unary::Extend16 => i32::from(((a % 0x1_0000) as u16).cast_signed()).cast_unsigned(),
        Unary::Extend32 => a,
    }
}

/// `clz`, `ctz` or `popcnt` of `i64`, by opcode 79 to 7B; `extend8_s`, `extend16_s` or `extend32_s`, by opcode C2 to
/// C4.
#[inline(always)]
pub fn unary64(opcode: u8, a: u64) -> u64
    requires group { IsTrue (is_unary64 opcode) }
    ensures operation { result ≡ unary w64 (unary_at opcode) a }
{
    match unary_of(opcode) {
        Unary::Clz => u64::from(a.leading_zeros()),
        Unary::Ctz => u64::from(a.trailing_zeros()),
        Unary::Popcnt => u64::from(a.count_ones()),
        Unary::Extend8 => i64::from(((a % 0x100) as u8).cast_signed()).cast_unsigned(),
        Unary::Extend16 => i64::from(((a % 0x1_0000) as u16).cast_signed()).cast_unsigned(),
        Unary::Extend32 => i64::from(((a % 0x1_0000_0000) as u32).cast_signed()).cast_unsigned(),
    }
}

/// `i32.eqz`: 1 for 0, else 0.
#[inline(always)]
pub fn test32(a: u32) -> u32
    ensures operation { result ≡ zero_test a }
{
    u32::from(a == 0)
}

/// `i64.eqz`: 1 for 0, else 0.
#[inline(always)]
pub fn test64(a: u64) -> u32
    ensures operation { result ≡ zero_test a }
{
    u32::from(a == 0)
}

/// The comparison of `i32` with opcode 46 to 4F: 1 where it holds, else 0.
#[inline(always)]
pub fn compare32(opcode: u8, a: u32, b: u32) -> u32
    requires group { IsTrue (among 0x46 0x4F opcode) }
    ensures operation { result ≡ comparison w32 (comparison_at opcode) a b }
{
    u32::from(match comparison_of(opcode) {
        Comparison::Eq => a == b,
        Comparison::Ne => a != b,
        Comparison::LtS => a.cast_signed() < b.cast_signed(),
        Comparison::LtU => a < b,
        Comparison::GtS => a.cast_signed() > b.cast_signed(),
        Comparison::GtU => a > b,
        Comparison::LeS => a.cast_signed() <= b.cast_signed(),
        Comparison::LeU => a <= b,
        Comparison::GeS => a.cast_signed() >= b.cast_signed(),
        Comparison::GeU => a >= b,
    })
}

/// The comparison of `i64` with opcode 51 to 5A: 1 where it holds, else 0.
#[inline(always)]
pub fn compare64(opcode: u8, a: u64, b: u64) -> u32
    requires group { IsTrue (among 0x51 0x5A opcode) }
    ensures operation { result ≡ comparison w64 (comparison_at opcode) a b }
{
    u32::from(match comparison_of(opcode) {
        Comparison::Eq => a == b,
        Comparison::Ne => a != b,
        Comparison::LtS => a.cast_signed() < b.cast_signed(),
        Comparison::LtU => a < b,
        Comparison::GtS => a.cast_signed() > b.cast_signed(),
        Comparison::GtU => a > b,
        Comparison::LeS => a.cast_signed() <= b.cast_signed(),
        Comparison::LeU => a <= b,
        Comparison::GeS => a.cast_signed() >= b.cast_signed(),
        Comparison::GeU => a >= b,
    })
}

/// `i32.wrap_i64` (A7), `i64.extend_i32_s` (AC) or `i64.extend_i32_u` (AD). A number of `i32` is extended by zeros on
/// both sides.
#[inline(always)]
pub fn convert(opcode: u8, a: u64) -> u64
    requires group { (opcode ≡ 0xA7) ⊎ ((opcode ≡ 0xAC) ⊎ (opcode ≡ 0xAD)) }
    requires narrow { (opcode ≡ 0xA7 → ⊥) → a < 2 ^ 32 }
    ensures operation { result ≡ conversion (conversion_at opcode) a }
{
    match conversion_of(opcode) {
        Conversion::Wrap => a % 0x1_0000_0000,
        Conversion::ExtendS => i64::from((a as u32).cast_signed()).cast_unsigned(),
        Conversion::ExtendU => a,
    }
}
