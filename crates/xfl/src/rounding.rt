ghost use Rattle.std.specs.Prelude.{◌≡◌, ◌+◌, ◌*◌, ◌^◌, ◌<◌, ◌≤◌, ◌≤ℤ◌, ◌↔◌, ◌⊎◌, pos, negsuc, IsTrue, IsFalse};
ghost use Rattle.xfl.specs.Cut.{IsCut, IsExact};
ghost use Rattle.xfl.specs.Operations.{ranged, next_ranged};
ghost use Rattle.xfl.specs.Steps.{IsRounded, IsRoundedUp, exact_of};

use crate::fault::XflFault;
use crate::value::{Xfl, ZERO};

/// A number cut toward zero to sixteen digits, mantissa * 10^exponent, and whether nothing was cut off.
#[derive(Clone, Copy)]
pub(crate) struct Digits {
    pub(crate) mantissa: u64,
    pub(crate) exponent: i64,
    pub(crate) exact: bool,
}

/// numerator / denominator * 10^exponent, with a sign.
#[derive(Clone, Copy)]
pub(crate) struct Quotient {
    pub(crate) negative: bool,
    pub(crate) numerator: u128,
    pub(crate) denominator: u128,
    pub(crate) exponent: i64,
}

/// The number, cut.
pub(crate) fn cut(whole: u128) -> Digits
    requires { 0 < whole }
    ensures cut { IsCut whole 1 (pos 0) result.mantissa result.exponent }
    ensures exact { IsTrue result.exact ↔ IsExact whole 1 (pos 0) result.mantissa result.exponent }
    ensures least { negsuc 14 ≤ℤ result.exponent }
    ensures greatest { result.exponent ≤ℤ pos 23 }
{
    let place = whole.ilog10();
    if place < 15 {
        lengthen(whole, 15 - place)
    } else {
        shorten(whole, place - 15)
    }
}

fn lengthen(whole: u128, added: u32) -> Digits
    requires few { added ≤ 15 }
    requires low { 10 ^ 15 ≤ whole * 10 ^ added }
    requires high { whole * 10 ^ added < 10 ^ 16 }
    ensures cut { IsCut whole 1 (pos 0) result.mantissa result.exponent }
    ensures exact { IsTrue result.exact ↔ IsExact whole 1 (pos 0) result.mantissa result.exponent }
    ensures least { negsuc 14 ≤ℤ result.exponent }
    ensures greatest { result.exponent ≤ℤ pos 23 }
{
    let unit = 10u128.pow(added);
    Digits {
        mantissa: (whole * unit) as u64,
        exponent: -i64::from(added),
        exact: true,
    }
}

fn shorten(whole: u128, dropped: u32) -> Digits
    requires few { dropped ≤ 23 }
    requires low { 10 ^ 15 * 10 ^ dropped ≤ whole }
    requires high { whole < 10 ^ 16 * 10 ^ dropped }
    ensures cut { IsCut whole 1 (pos 0) result.mantissa result.exponent }
    ensures exact { IsTrue result.exact ↔ IsExact whole 1 (pos 0) result.mantissa result.exponent }
    ensures least { negsuc 14 ≤ℤ result.exponent }
    ensures greatest { result.exponent ≤ℤ pos 23 }
{
    let unit = 10u128.pow(dropped);
    Digits {
        mantissa: (whole / unit) as u64,
        exponent: i64::from(dropped),
        exact: whole % unit == 0,
    }
}

/// numerator / denominator, cut.
pub(crate) fn cut_quotient(numerator: u128, denominator: u128) -> Digits
    requires divisible { 0 < denominator }
    requires long { 10 ^ 15 * denominator ≤ numerator }
    ensures cut { IsCut numerator denominator (pos 0) result.mantissa result.exponent }
    ensures exact { IsTrue result.exact ↔ IsExact numerator denominator (pos 0) result.mantissa result.exponent }
    ensures least { negsuc 14 ≤ℤ result.exponent }
    ensures greatest { result.exponent ≤ℤ pos 23 }
{
    let whole = cut(numerator / denominator);
    Digits {
        mantissa: whole.mantissa,
        exponent: whole.exponent,
        exact: whole.exact && numerator % denominator == 0,
    }
}

/// The number of these sixteen digits where its exponent is in the range; 0 below, a fault above.
pub(crate) fn in_range(negative: bool, mantissa: u64, exponent: i64) -> Result<Xfl, XflFault>
    requires low { 10 ^ 15 ≤ mantissa }
    requires high { mantissa < 10 ^ 16 }
    ensures { result ≡ ranged negative mantissa exponent }
{
    if exponent < -96 {
        Ok(ZERO)
    } else if exponent > 80 {
        Err(XflFault::Overflow)
    } else {
        Ok(Xfl {
            negative,
            mantissa,
            exponent,
        })
    }
}

/// whole * 10^exponent, rounded toward zero.
pub(crate) fn rounded(negative: bool, whole: u128, exponent: i64) -> Result<Xfl, XflFault>
    requires least { negsuc (2 ^ 40) ≤ℤ exponent }
    requires greatest { exponent ≤ℤ pos (2 ^ 40) }
    ensures { IsRounded (record { negative = negative; numerator = whole; denominator = 1; exponent = exponent })
        result }
{
    if whole == 0 {
        return Ok(ZERO);
    }
    let digits = cut(whole);
    in_range(negative, digits.mantissa, exponent + digits.exponent)
}

/// The quotient, rounded toward zero.
pub(crate) fn rounded_quotient(of: Quotient) -> Result<Xfl, XflFault>
    requires divisible { 0 < of.denominator }
    requires long { 0 < of.numerator → 10 ^ 15 * of.denominator ≤ of.numerator }
    requires least { negsuc (2 ^ 40) ≤ℤ of.exponent }
    requires greatest { of.exponent ≤ℤ pos (2 ^ 40) }
    ensures { IsRounded (exact_of of) result }
{
    if of.numerator == 0 {
        return Ok(ZERO);
    }
    let digits = cut_quotient(of.numerator, of.denominator);
    in_range(of.negative, digits.mantissa, of.exponent + digits.exponent)
}

/// The quotient, rounded away from zero.
pub(crate) fn rounded_up(of: Quotient) -> Result<Xfl, XflFault>
    requires divisible { 0 < of.denominator }
    requires long { 0 < of.numerator → 10 ^ 15 * of.denominator ≤ of.numerator }
    requires least { negsuc (2 ^ 40) ≤ℤ of.exponent }
    requires greatest { of.exponent ≤ℤ pos (2 ^ 40) }
    ensures { IsRoundedUp (exact_of of) result }
{
    if of.numerator == 0 {
        return Ok(ZERO);
    }
    let digits = cut_quotient(of.numerator, of.denominator);
    if digits.exact {
        in_range(of.negative, digits.mantissa, of.exponent + digits.exponent)
    } else {
        next_in_range(of.negative, digits.mantissa, of.exponent + digits.exponent)
    }
}

/// The next greater number of sixteen digits, in the range.
fn next_in_range(negative: bool, mantissa: u64, exponent: i64) -> Result<Xfl, XflFault>
    requires low { 10 ^ 15 ≤ mantissa }
    requires high { mantissa < 10 ^ 16 }
    requires greatest { exponent ≤ℤ pos (2 ^ 50) }
    ensures { result ≡ next_ranged negative mantissa exponent }
{
    if mantissa + 1 == 10_000_000_000_000_000 {
        in_range(negative, 1_000_000_000_000_000, exponent + 1)
    } else {
        in_range(negative, mantissa + 1, exponent)
    }
}
