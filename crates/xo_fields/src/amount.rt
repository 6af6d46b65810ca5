ghost use Rattle.std.specs.Prelude.{◌≡◌, ◌+◌, ◌-◌, ◌≤◌, ◌<◌, ◌^◌, ◌==◌, ◌++◌, if◌then◌else◌, length, take, drop};
ghost use Rattle.std.specs.Prelude.{replicate, slice_index};
ghost use Rattle.std.specs.Int.{w64, from_be_bytes};
ghost use Rattle.xo_fields.specs.Amount.{amount_bytes, IsValid, AmountGives};
ghost use Rattle.xo_fields.specs.Decimal.{decimal_bits};
ghost use Rattle.xo_fields.specs.Table.{least};

/// How many bytes a native amount takes, and the number of an issued one.
const NUMBER_SIZE: usize = 8;
/// How many bytes an issued amount takes.
const ISSUED_SIZE: usize = 48;
/// The first bit, which is 1 in an issued amount.
const ISSUED: u64 = 1 << 63;
/// The second bit, which is 1 in a native amount, and in a positive decimal.
const POSITIVE: u64 = 1 << 62;
/// What 1 more in a decimal's exponent adds to its bits.
const EXPONENT: u64 = 1 << 54;
/// The least mantissa of a decimal.
const LEAST_MANTISSA: u64 = 1_000_000_000_000_000;

/// An amount of drops, or of a currency that an account issues.
#[derive(Clone, Copy, Debug, PartialEq, Eq)]
pub enum Amount {
    /// Drops, below 2^62.
    Native(u64),
    /// The bits of a decimal, the currency and its issuer.
    Issued {
        value: i64,
        currency: [u8; 20],
        issuer: [u8; 20],
    },
}

/// What stands at the front of bytes that should begin with an amount.
#[derive(Clone, Copy, Debug, PartialEq, Eq)]
pub enum AmountRead {
    /// The bytes end before the amount does.
    Cut,
    /// No amount begins so.
    Bad,
    /// An amount that takes so many bytes.
    Amount { amount: Amount, size: usize },
}

/// The amount that stands at a place.
pub fn read_amount(bytes: &[u8], at: usize) -> AmountRead
    requires { at ≤ length bytes.now }
    ensures read { AmountGives (drop at bytes.now) result }
{
    amount_in(&bytes[at..])
}

/// The amount at the front of the bytes.
fn amount_in(bytes: &[u8]) -> AmountRead
    ensures { AmountGives bytes.now result }
{
    match bytes {
        [] => AmountRead::Cut,
        [first, ..] => {
            if *first < 64 {
                AmountRead::Bad
            } else if *first < 128 {
                native_in(bytes)
            } else {
                issued_in(bytes)
            }
        }
    }
}

/// The native amount at the front of bytes whose first bits are 01.
fn native_in(bytes: &[u8]) -> AmountRead
    requires some { 0 < length bytes.now }
    requires low { 64 ≤ slice_index bytes.now 0 }
    requires high { slice_index bytes.now 0 < 128 }
    ensures { AmountGives bytes.now result }
{
    if bytes.len() < NUMBER_SIZE {
        return AmountRead::Cut;
    }
    let number = u64::from_be_bytes(padded(bytes, 0));
    AmountRead::Amount {
        amount: Amount::Native(number - POSITIVE),
        size: NUMBER_SIZE,
    }
}

/// The issued amount at the front of bytes whose first bit is 1.
fn issued_in(bytes: &[u8]) -> AmountRead
    requires some { 0 < length bytes.now }
    requires low { 128 ≤ slice_index bytes.now 0 }
    ensures { AmountGives bytes.now result }
{
    let low = u64::from_be_bytes(padded(bytes, 0)) - ISSUED;
    let high = u64::from_be_bytes(padded(bytes, 255)) - ISSUED;
    match least_decimal(low) {
        None => AmountRead::Bad,
        Some(value) => {
            if high < value {
                AmountRead::Bad
            } else if bytes.len() < ISSUED_SIZE {
                AmountRead::Cut
            } else {
                AmountRead::Amount {
                    amount: Amount::Issued {
                        value: value as i64,
                        currency: twenty(&bytes[8..28]),
                        issuer: twenty(&bytes[28..48]),
                    },
                    size: ISSUED_SIZE,
                }
            }
        }
    }
}

/// The first eight bytes, those that are not there filled in.
fn padded(bytes: &[u8], fill: u8) -> [u8; 8]
    ensures { result ≡ take 8 bytes.now ++ replicate (8 - length bytes.now) fill }
{
    let mut head = [fill; NUMBER_SIZE];
    let shown = bytes.len().min(NUMBER_SIZE);
    head[..shown].copy_from_slice(&bytes[..shown]);
    head
}

/// An own copy of twenty bytes.
fn twenty(bytes: &[u8]) -> [u8; 20]
    requires { length bytes.now ≡ 20 }
    ensures { result ≡ bytes.now }
{
    let mut copy = [0; 20];
    copy.copy_from_slice(bytes);
    copy
}

/// The least bits of a decimal that are not below `low`.
fn least_decimal(low: u64) -> Option<u64>
    requires { low < 2 ^ 63 }
    ensures { result ≡ least low }
{
    if low == 0 {
        return Some(0);
    }
    let positive = low / POSITIVE;
    let biased = low / EXPONENT % 256;
    let mantissa = low % EXPONENT;
    if biased == 0 {
        Some(positive * POSITIVE + EXPONENT + LEAST_MANTISSA)
    } else if biased > 177 {
        first_positive(positive)
    } else if mantissa < LEAST_MANTISSA {
        Some(positive * POSITIVE + biased * EXPONENT + LEAST_MANTISSA)
    } else if mantissa < 10 * LEAST_MANTISSA {
        Some(positive * POSITIVE + biased * EXPONENT + mantissa)
    } else if biased < 177 {
        Some(positive * POSITIVE + (biased + 1) * EXPONENT + LEAST_MANTISSA)
    } else {
        first_positive(positive)
    }
}

/// The least positive decimal, after the negative ones.
fn first_positive(positive: u64) -> Option<u64>
    ensures { result ≡ (if positive == 0 then Some (decimal_bits 1 1 1000000000000000) else None) }
{
    if positive == 0 {
        Some(POSITIVE + EXPONENT + LEAST_MANTISSA)
    } else {
        None
    }
}

/// The bytes of an amount, and how many of the 48 it takes.
pub fn write_amount(amount: &Amount) -> ([u8; 48], usize)
    requires { IsValid amount.now }
    ensures size { result.1 ≤ 48 }
    ensures bytes { take result.1 result.0 ≡ amount_bytes amount.now }
{
    let mut bytes = [0; ISSUED_SIZE];
    match amount {
        Amount::Native(drops) => {
            bytes[..8].copy_from_slice(&(POSITIVE + *drops).to_be_bytes());
            (bytes, NUMBER_SIZE)
        }
        Amount::Issued {
            value,
            currency,
            issuer,
        } => {
            bytes[..8].copy_from_slice(&(ISSUED + *value as u64).to_be_bytes());
            bytes[8..28].copy_from_slice(currency);
            bytes[28..48].copy_from_slice(issuer);
            (bytes, ISSUED_SIZE)
        }
    }
}
