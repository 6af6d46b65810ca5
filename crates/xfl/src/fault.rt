/// Why an operation on decimals has no result.
#[derive(Clone, Copy, Debug, PartialEq, Eq)]
pub enum XflFault {
    /// The divisor is 0.
    DivisionByZero,
    /// The exponent of the result is above 80.
    Overflow,
    /// More than 15 places are asked for.
    BadPlaces,
    /// The number is negative, and its absolute value isn't asked for.
    Negative,
    /// The whole number is above 2^63 - 1.
    TooBig,
}
