ghost use Rattle.std.specs.Prelude.{◌≡◌, ◌≤◌, length, take, drop};
ghost use Rattle.xo_fields.specs.Length.{prefix, LengthGives};
ghost use Rattle.xo_fields.specs.Table.{length_at, two_bytes, three_bytes};

/// The greatest length that has a prefix.
const GREATEST: u32 = 918_744;

/// What stands at the front of bytes that should begin with a length.
#[derive(Clone, Copy, Debug, PartialEq, Eq)]
pub enum LengthRead {
    /// The bytes end before the length does.
    Cut,
    /// No length begins so.
    Bad,
    /// A length that takes so many bytes.
    Length { length: u32, size: usize },
}

/// The length that stands at a place.
pub fn read_length(bytes: &[u8], at: usize) -> LengthRead
    requires { at ≤ length bytes.now }
    ensures read { LengthGives (drop at bytes.now) result }
{
    length_in(&bytes[at..])
}

/// The length at the front of the bytes.
fn length_in(bytes: &[u8]) -> LengthRead
    ensures { LengthGives bytes.now result }
{
    spelled_length(bytes)
}

/// The length at the front of the bytes, by the first of them.
fn spelled_length(bytes: &[u8]) -> LengthRead
    ensures { result ≡ length_at bytes.now }
{
    match bytes {
        [] => LengthRead::Cut,
        [first, rest @ ..] => {
            let first = u32::from(*first);
            if first <= 192 {
                LengthRead::Length {
                    length: first,
                    size: 1,
                }
            } else if first <= 240 {
                length_of_two(first, rest)
            } else if first <= 254 {
                length_of_three(first, rest)
            } else {
                LengthRead::Bad
            }
        }
    }
}

/// A length of two bytes, after the first.
fn length_of_two(first: u32, rest: &[u8]) -> LengthRead
    requires low { 193 ≤ first }
    requires high { first ≤ 240 }
    ensures { result ≡ two_bytes first rest.now }
{
    match rest {
        [] => LengthRead::Cut,
        [second, ..] => LengthRead::Length {
            length: 193 + (first - 193) * 256 + u32::from(*second),
            size: 2,
        },
    }
}

/// A length of three bytes, after the first.
fn length_of_three(first: u32, rest: &[u8]) -> LengthRead
    requires low { 241 ≤ first }
    requires high { first ≤ 254 }
    ensures { result ≡ three_bytes first rest.now }
{
    match rest {
        [] => LengthRead::Cut,
        [second] => {
            let least = 12_481 + (first - 241) * 65_536 + u32::from(*second) * 256;
            if least <= GREATEST {
                LengthRead::Cut
            } else {
                LengthRead::Bad
            }
        }
        [second, third, ..] => {
            let length = 12_481
                + (first - 241) * 65_536
                + u32::from(*second) * 256
                + u32::from(*third);
            if length <= GREATEST {
                LengthRead::Length { length, size: 3 }
            } else {
                LengthRead::Bad
            }
        }
    }
}

/// The bytes of a length, and how many of the three it takes.
pub fn write_length(length: u32) -> ([u8; 3], usize)
    requires { length ≤ 918744 }
    ensures size { result.1 ≤ 3 }
    ensures bytes { take result.1 result.0 ≡ prefix length }
{
    if length <= 192 {
        ([length as u8, 0, 0], 1)
    } else if length <= 12_480 {
        let above = length - 193;
        ([(193 + above / 256) as u8, (above % 256) as u8, 0], 2)
    } else {
        let above = length - 12_481;
        (
            [
                (241 + above / 65_536) as u8,
                (above / 256 % 256) as u8,
                (above % 256) as u8,
            ],
            3,
        )
    }
}
