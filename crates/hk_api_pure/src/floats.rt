//! Arguments that are XFLs, and the codes of what can't be calculated.
ghost use Rattle.std.specs.Prelude.{◌≡◌};
ghost use Rattle.hk_api_pure.specs.Floats as floats;

use hk_calls::Code;
use xfl::{Xfl, XflFault};

/// The XFL of bits.
pub(crate) fn float(bits: i64) -> Result<Xfl, Code>
    ensures { result ≡ floats.float bits }
{
    match Xfl::from_bits(bits) {
        Some(x) => Ok(x),
        None => Err(Code::InvalidFloat),
    }
}

/// Whether the bits are an XFL's.
pub(crate) fn is_xfl(bits: i64) -> bool
    ensures { result ≡ floats.is_xfl bits }
{
    match float(bits) {
        Ok(_) => true,
        Err(_) => false,
    }
}

/// The code of a fault.
fn code_of(fault: XflFault) -> Code
    ensures { result ≡ floats.code_of fault }
{
    match fault {
        XflFault::DivisionByZero => Code::DivisionByZero,
        XflFault::Overflow => Code::XflOverflow,
        XflFault::BadPlaces => Code::InvalidArgument,
        XflFault::Negative => Code::CantReturnNegative,
        XflFault::TooBig => Code::TooBig,
    }
}

/// What was calculated, as its bits.
pub(crate) fn bits(calculated: Result<Xfl, XflFault>) -> Result<i64, Code>
    ensures { result ≡ floats.bits calculated }
{
    match calculated {
        Ok(x) => Ok(x.bits()),
        Err(fault) => Err(code_of(fault)),
    }
}

/// A whole number that was calculated.
pub(crate) fn number(calculated: Result<i64, XflFault>) -> Result<i64, Code>
    ensures { result ≡ floats.calculated calculated }
{
    match calculated {
        Ok(number) => Ok(number),
        Err(fault) => Err(code_of(fault)),
    }
}
