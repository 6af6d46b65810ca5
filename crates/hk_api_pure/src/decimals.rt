//! Rows 10 to 21: decimals, by their bits.
ghost use Rattle.std.specs.Prelude.{◌≡◌};
ghost use Rattle.hk_api_pure.specs.Decimals as rows;

use crate::floats::{bits, float, number};
use hk_calls::{Code, refuse};
use std::cmp::Ordering;
use xfl::{divide, invert, mulratio, multiply, set, sum, to_int};

/// The bits of 1.
const ONE: i64 = 6_089_866_696_204_910_592;

/// Row 10: 1.
pub(crate) fn float_one() -> Result<i64, Code>
    ensures { result ≡ rows.float_one }
{
    Ok(ONE)
}

/// Row 11: mantissa * 10^exponent.
pub(crate) fn float_set(exponent: i32, mantissa: i64) -> Result<i64, Code>
    ensures { result ≡ rows.float_set exponent mantissa }
{
    bits(set(exponent, mantissa))
}

/// Row 12: x * y.
pub(crate) fn float_multiply(x: i64, y: i64) -> Result<i64, Code>
    ensures { result ≡ rows.float_multiply x y }
{
    bits(multiply(float(x)?, float(y)?))
}

/// Row 13: x * num / den, toward zero, or where `up` isn't 0 away from it.
pub(crate) fn float_mulratio(x: i64, up: u32, num: u32, den: u32) -> Result<i64, Code>
    ensures { result ≡ rows.float_mulratio x up num den }
{
    bits(mulratio(float(x)?, up != 0, num, den))
}

/// Row 14: x / y.
pub(crate) fn float_divide(x: i64, y: i64) -> Result<i64, Code>
    ensures { result ≡ rows.float_divide x y }
{
    bits(divide(float(x)?, float(y)?))
}

/// Row 15: 1 / x.
pub(crate) fn float_invert(x: i64) -> Result<i64, Code>
    ensures { result ≡ rows.float_invert x }
{
    bits(invert(float(x)?))
}

/// Row 16: x + y.
pub(crate) fn float_sum(x: i64, y: i64) -> Result<i64, Code>
    ensures { result ≡ rows.float_sum x y }
{
    bits(sum(float(x)?, float(y)?))
}

/// Row 17: -x.
pub(crate) fn float_negate(x: i64) -> Result<i64, Code>
    ensures { result ≡ rows.float_negate x }
{
    Ok(float(x)?.negate().bits())
}

/// Row 18: whether x and y stand as one of the orders that the mode asks for.
pub(crate) fn float_compare(x: i64, y: i64, mode: u32) -> Result<i64, Code>
    ensures { result ≡ rows.float_compare x y mode }
{
    let x = float(x)?;
    let y = float(y)?;
    refuse(mode == 0 || mode > 6, Code::InvalidArgument)?;
    Ok(if asks(mode, x.compare(y)) { 1 } else { 0 })
}

/// Whether a mode asks for an order: bit 1 for equal, bit 2 for less, bit 4 for greater.
fn asks(mode: u32, order: Ordering) -> bool
    ensures { result ≡ rows.asks mode order }
{
    match order {
        Ordering::Equal => mode % 2 == 1,
        Ordering::Less => mode / 2 % 2 == 1,
        Ordering::Greater => mode / 4 % 2 == 1,
    }
}

/// Row 19: the sixteen digits.
pub(crate) fn float_mantissa(x: i64) -> Result<i64, Code>
    ensures { result ≡ rows.float_mantissa x }
{
    Ok(float(x)?.mantissa())
}

/// Row 20: 1 for a negative number, else 0.
pub(crate) fn float_sign(x: i64) -> Result<i64, Code>
    ensures { result ≡ rows.float_sign x }
{
    Ok(float(x)?.sign())
}

/// Row 21: the whole part of x * 10^places, or where `absolute` isn't 0 of |x| * 10^places.
pub(crate) fn float_int(x: i64, places: u32, absolute: u32) -> Result<i64, Code>
    ensures { result ≡ rows.float_int x places absolute }
{
    number(to_int(float(x)?, places, absolute != 0))
}
