ghost use Rattle.std.specs.Prelude.{◌≡◌, ◌^◌, ◌<◌, ◌≤◌, IfOk};
ghost use Rattle.wa_decode.specs.Ranges.{InBits};
ghost use Rattle.wa_decode.specs.Reading.{Gives, signed_at, unsigned_at};

use crate::fault::DecodeFault;

/// An unsigned 32-bit number in LEB128, and the bytes behind it.
pub(crate) fn number(bytes: &[u8]) -> Result<(u32, &[u8]), DecodeFault>
    ensures { Gives (λ x. (x.0, x.1.now)) result (unsigned_at 32 bytes.now) }
{
    unsigned(32, bytes)
}

/// An unsigned number of `bits` bits: the lowest seven bits first, a byte from 128 on where more follow.
#[tactic(auto, unfolding(crate::specs::Reading::unsigned_at))]
fn unsigned(bits: u32, bytes: &[u8]) -> Result<(u32, &[u8]), DecodeFault>
    requires bits { bits ≤ 32 }
    ensures number { Gives (λ x. (x.0, x.1.now)) result (unsigned_at bits bytes.now) }
    ensures fits { IfOk result (λ x. x.0 < 2 ^ bits) }
{
    let [byte, rest @ ..] = bytes else {
        return Err(DecodeFault::Malformed);
    };
    let byte = *byte;
    if byte < 128 {
        if u64::from(byte) < 1 << bits {
            return Ok((u32::from(byte), rest));
        }
        return Err(DecodeFault::Malformed);
    }
    if bits <= 7 {
        return Err(DecodeFault::Malformed);
    }
    let (high, rest) = unsigned(bits - 7, rest)?;
    Ok((u32::from(byte - 128) + 128 * high, rest))
}

/// A signed 32-bit number in LEB128, and the bytes behind it.
pub(crate) fn signed32(bytes: &[u8]) -> Result<(i32, &[u8]), DecodeFault>
    ensures { Gives (λ x. (x.0, x.1.now)) result (signed_at 32 bytes.now) }
{
    let (number, rest) = signed(32, bytes)?;
    Ok((number as i32, rest))
}

/// A signed 64-bit number in LEB128, and the bytes behind it.
pub(crate) fn signed64(bytes: &[u8]) -> Result<(i64, &[u8]), DecodeFault>
    ensures { Gives (λ x. (x.0, x.1.now)) result (signed_at 64 bytes.now) }
{
    signed(64, bytes)
}

/// A signed number of `bits` bits: as an unsigned one, but that the last byte stands for itself less 128 from 64 on.
#[tactic(auto, unfolding(crate::specs::Reading::signed_at))]
fn signed(bits: u32, bytes: &[u8]) -> Result<(i64, &[u8]), DecodeFault>
    requires some { 0 < bits }
    requires bits { bits ≤ 64 }
    ensures number { Gives (λ x. (x.0, x.1.now)) result (signed_at bits bytes.now) }
    ensures fits { IfOk result (λ x. InBits bits x.0) }
{
    let [byte, rest @ ..] = bytes else {
        return Err(DecodeFault::Malformed);
    };
    let byte = *byte;
    let half = 1u64 << (bits - 1);
    if byte < 64 {
        if u64::from(byte) < half {
            return Ok((i64::from(byte), rest));
        }
        return Err(DecodeFault::Malformed);
    }
    if byte < 128 {
        if 128 <= u64::from(byte) + half {
            return Ok((i64::from(byte) - 128, rest));
        }
        return Err(DecodeFault::Malformed);
    }
    if bits <= 7 {
        return Err(DecodeFault::Malformed);
    }
    let (high, rest) = signed(bits - 7, rest)?;
    Ok((i64::from(byte - 128) + 128 * high, rest))
}
