ghost use Rattle.std.specs.Prelude.{◌≡◌, ◌+◌, ◌*◌, ◌/◌, ◌^◌, ◌<◌, ◌≤◌, ◌≤ℤ◌, ◌-ℤ◌, ◌+ℤ◌, pos, negsuc, IsTrue, IsFalse};
ghost use Rattle.xfl.specs.Value.{one};
ghost use Rattle.xfl.specs.Operations.{whole, product, total, rounded, divided, ratio_of, to_int_of, whole_part};
ghost use Rattle.xfl.specs.Operations.{fitted};
ghost use Rattle.xfl.specs.Steps.{IsRounded};

use crate::fault::XflFault;
use crate::rounding::{Quotient, cut, rounded, rounded_quotient, rounded_up};
use crate::value::{ONE, Xfl, ZERO};

/// mantissa * 10^exponent.
pub fn set(exponent: i32, mantissa: i64) -> Result<Xfl, XflFault>
    ensures { result ≡ rounded (whole mantissa exponent) }
{
    rounded(
        mantissa < 0,
        u128::from(mantissa.unsigned_abs()),
        i64::from(exponent),
    )
}

/// drops * 10^-6.
pub fn from_drops(drops: u64) -> Xfl
    requires { drops < 2 ^ 62 }
    ensures { Ok result ≡ rounded (whole (pos drops) (negsuc 5)) }
{
    if drops == 0 {
        return ZERO;
    }
    let digits = cut(u128::from(drops));
    Xfl {
        negative: false,
        mantissa: digits.mantissa,
        exponent: digits.exponent - 6,
    }
}

/// x * y.
pub fn multiply(x: Xfl, y: Xfl) -> Result<Xfl, XflFault>
    ensures { result ≡ rounded (product x y) }
{
    rounded(
        x.negative != y.negative,
        u128::from(x.mantissa) * u128::from(y.mantissa),
        x.exponent + y.exponent,
    )
}

/// x / y.
pub fn divide(x: Xfl, y: Xfl) -> Result<Xfl, XflFault>
    ensures { result ≡ divided x y }
{
    if y.mantissa == 0 {
        return Err(XflFault::DivisionByZero);
    }
    rounded_quotient(Quotient {
        negative: x.negative != y.negative,
        numerator: u128::from(x.mantissa) * 100_000_000_000_000_000,
        denominator: u128::from(y.mantissa),
        exponent: x.exponent - y.exponent - 17,
    })
}

/// 1 / x.
pub fn invert(x: Xfl) -> Result<Xfl, XflFault>
    ensures { result ≡ divided one x }
{
    divide(ONE, x)
}

/// x * num / den, toward zero, or with `up` away from it.
pub fn mulratio(x: Xfl, up: bool, num: u32, den: u32) -> Result<Xfl, XflFault>
    ensures { result ≡ ratio_of x up num den }
{
    if den == 0 {
        return Err(XflFault::DivisionByZero);
    }
    let share = Quotient {
        negative: x.negative,
        numerator: u128::from(x.mantissa) * u128::from(num) * 10_000_000_000,
        denominator: u128::from(den),
        exponent: x.exponent - 10,
    };
    if up {
        rounded_up(share)
    } else {
        rounded_quotient(share)
    }
}

/// x + y.
pub fn sum(x: Xfl, y: Xfl) -> Result<Xfl, XflFault>
    ensures { result ≡ rounded (total x y) }
{
    match (x.mantissa, y.mantissa) {
        (0, _) => Ok(y),
        (_, 0) => Ok(x),
        _ if x.exponent < y.exponent => sum_ordered(y, x),
        _ => sum_ordered(x, y),
    }
}

fn sum_ordered(high: Xfl, low: Xfl) -> Result<Xfl, XflFault>
    requires high_number { 0 < high.mantissa }
    requires low_number { 0 < low.mantissa }
    requires ordered { low.exponent ≤ℤ high.exponent }
    ensures { IsRounded (total high low) result }
{
    let gap = (high.exponent - low.exponent) as u64;
    if gap <= 16 {
        sum_near(high, low, gap as u32)
    } else {
        sum_far(high, low)
    }
}

// The sum is a whole number of the lower power of ten.
fn sum_near(high: Xfl, low: Xfl, gap: u32) -> Result<Xfl, XflFault>
    requires high_number { 0 < high.mantissa }
    requires low_number { 0 < low.mantissa }
    requires gap { high.exponent ≡ low.exponent +ℤ pos gap }
    requires near { gap ≤ 16 }
    ensures { IsRounded (total high low) result }
{
    let larger = u128::from(high.mantissa) * 10u128.pow(gap);
    let smaller = u128::from(low.mantissa);
    if high.negative == low.negative {
        rounded(high.negative, larger + smaller, low.exponent)
    } else if smaller <= larger {
        rounded(high.negative, larger - smaller, low.exponent)
    } else {
        rounded(low.negative, smaller - larger, low.exponent)
    }
}

// The lower number is less than one unit of the seventeenth digit of the higher one. It is not dropped: where
// it is subtracted, that digit falls by one.
fn sum_far(high: Xfl, low: Xfl) -> Result<Xfl, XflFault>
    requires high_number { 0 < high.mantissa }
    requires low_number { 0 < low.mantissa }
    requires far { (low.exponent +ℤ pos 17) ≤ℤ high.exponent }
    ensures { IsRounded (total high low) result }
{
    let larger = u128::from(high.mantissa) * 10;
    let whole = if high.negative == low.negative {
        larger
    } else {
        larger - 1
    };
    rounded(high.negative, whole, high.exponent - 1)
}

/// x times 10^places as a whole number, cut toward zero.
pub fn to_int(x: Xfl, places: u32, absolute: bool) -> Result<i64, XflFault>
    ensures { result ≡ to_int_of x places absolute }
{
    if places > 15 {
        return Err(XflFault::BadPlaces);
    }
    if x.negative && !absolute {
        return Err(XflFault::Negative);
    }
    whole_number(x, places)
}

fn whole_number(x: Xfl, places: u32) -> Result<i64, XflFault>
    requires { places ≤ 15 }
    ensures { result ≡ fitted (whole_part x places) }
{
    let shift = x.exponent + i64::from(places);
    if shift < 0 {
        Ok(drop_digits(x.mantissa, (-shift) as u32))
    } else {
        add_digits(x.mantissa, shift as u32)
    }
}

fn drop_digits(mantissa: u64, dropped: u32) -> i64
    requires { mantissa < 10 ^ 16 }
    ensures { result ≡ pos (mantissa / 10 ^ dropped) }
{
    if dropped > 16 {
        0
    } else {
        (mantissa / 10u64.pow(dropped)) as i64
    }
}

fn add_digits(mantissa: u64, added: u32) -> Result<i64, XflFault>
    requires short { mantissa < 10 ^ 16 }
    requires some { 22 < added → 0 < mantissa }
    ensures { result ≡ fitted (mantissa * 10 ^ added) }
{
    if added > 22 {
        return Err(XflFault::TooBig);
    }
    let whole = u128::from(mantissa) * 10u128.pow(added);
    i64::try_from(whole).map_err(|_| XflFault::TooBig)
}
