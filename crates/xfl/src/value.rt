ghost use Rattle.std.specs.Prelude.{◌≡◌, ◌^◌, ◌<◌, ◌≤◌, pos, IfSome, IfNone, if◌then◌else◌};
ghost use Rattle.std.specs.Ordering.{int_cmp};
ghost use Rattle.xfl.specs.Value.{nought, negated, scaled, bits_of, decimal_of, IsXfl, IsXflBits};
ghost use Rattle.xfl.specs.Steps.{rank_of};
ghost use Rattle.xo_fields.specs.Decimal.{decimal_bits, IsDecimal};

use std::cmp::Ordering;
use std::marker::Model;

/// A decimal: 0, or a number of sixteen digits with an exponent from -96 to 80.
#[derive(Clone, Copy, Debug, PartialEq, Eq)]
pub struct Xfl {
    pub(crate) negative: bool,
    pub(crate) mantissa: u64,
    pub(crate) exponent: i64,
}

impl Model for Xfl {
    ghost use Rattle.xfl.specs.Value.{Decimal, IsXfl};

    ghost Value = { Decimal };

    ghost view = { λ x. record { negative = x.negative; mantissa = x.mantissa; exponent = x.exponent } };

    ghost invariant = { λ x. IsXfl (record { negative = x.negative; mantissa = x.mantissa; exponent = x.exponent }) };

    ghost inverse = { λ d. record { negative = d.negative; mantissa = d.mantissa; exponent = d.exponent } };
}

pub(crate) const ZERO: Xfl = Xfl {
    negative: false,
    mantissa: 0,
    exponent: 0,
};

pub(crate) const ONE: Xfl = Xfl {
    negative: false,
    mantissa: 1_000_000_000_000_000,
    exponent: -15,
};

// The bits of a number other than 0, whose exponent has 97 added.
fn number_bits(positive: bool, biased: u64, mantissa: u64) -> u64
    requires exponent_low { 1 ≤ biased }
    requires exponent_high { biased ≤ 177 }
    requires mantissa_low { 10 ^ 15 ≤ mantissa }
    requires mantissa_high { mantissa < 10 ^ 16 }
    ensures value { result ≡ decimal_bits (if positive then 1 else 0) biased mantissa }
    ensures valid { IsDecimal result }
    ensures bound { result < 2 ^ 63 }
{
    (u64::from(positive) << 62) + (biased << 54) + mantissa
}

// The number other than 0 of these bits.
fn number_from_bits(bits: u64) -> Option<Xfl>
    requires { 0 < bits }
    ensures none { IfNone result (IsDecimal bits → ⊥) }
    ensures some { IfSome result (λ x. bits_of x ≡ pos bits) }
    ensures valid { IfSome result (λ x. IsXfl x) }
    ensures value { IfSome result (λ x. x ≡ decimal_of (pos bits)) }
{
    let mantissa = bits % (1 << 54);
    let biased = bits / (1 << 54) % 256;
    let in_range = (1..=177).contains(&biased)
        && (1_000_000_000_000_000..10_000_000_000_000_000).contains(&mantissa);
    if bits / (1 << 63) == 0 && in_range {
        Some(Xfl {
            negative: bits / (1 << 62) == 0,
            mantissa,
            exponent: biased as i64 - 97,
        })
    } else {
        None
    }
}

impl Xfl {
    /// The decimal of these bits: 0 is 0; else bit 63 is 0, bit 62 is 1 for a positive number, and 8 bits of
    /// exponent + 97 and 54 bits of mantissa follow.
    pub fn from_bits(bits: i64) -> Option<Xfl>
        ensures none { IfNone result (IsXflBits bits → ⊥) }
        ensures some { IfSome result (λ x. bits_of x ≡ bits) }
        ensures valid { IfSome result (λ x. IsXfl x) }
        ensures value { IfSome result (λ x. x ≡ decimal_of bits) }
    {
        let bits = u64::try_from(bits).ok()?;
        if bits == 0 {
            return Some(ZERO);
        }
        number_from_bits(bits)
    }

    /// The bits of the decimal.
    pub fn bits(self) -> i64
        ensures value { result ≡ bits_of self }
        ensures valid { IsXflBits result }
    {
        if self.mantissa == 0 {
            return 0;
        }
        let biased = (self.exponent + 97) as u64;
        number_bits(!self.negative, biased, self.mantissa) as i64
    }

    /// The sixteen digits as a whole number, 0 for 0.
    pub fn mantissa(self) -> i64
        ensures value { result ≡ pos self.mantissa }
        ensures valid { IsXfl self }
    {
        self.mantissa as i64
    }

    /// 1 for a negative number, else 0.
    pub fn sign(self) -> i64
        ensures { result ≡ (if self.negative then pos 1 else pos 0) }
    {
        if self.negative { 1 } else { 0 }
    }

    /// The number with the other sign; 0 stays 0.
    pub fn negate(self) -> Xfl
        ensures { result ≡ negated self }
    {
        Xfl {
            negative: self.mantissa != 0 && !self.negative,
            ..self
        }
    }

    /// The order of the values.
    pub fn compare(self, other: Xfl) -> Ordering
        ensures { result ≡ int_cmp (scaled self) (scaled other) }
    {
        self.rank().cmp(&other.rank())
    }

    // A whole number that is ordered as the values are: the exponent decides, then the mantissa.
    fn rank(self) -> i64
        ensures value { result ≡ rank_of self }
        ensures valid { IsXfl self }
    {
        if self.mantissa == 0 {
            return 0;
        }
        let magnitude = (self.exponent + 97) * 10_000_000_000_000_000 + self.mantissa as i64;
        if self.negative { -magnitude } else { magnitude }
    }
}
