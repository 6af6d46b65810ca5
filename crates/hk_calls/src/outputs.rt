ghost use Rattle.std.specs.Prelude.{◌≡◌, ◌+◌, ◌-◌, ◌≤◌, ◌++◌, pos, length, replicate, IsTrue};
ghost use Rattle.wa_num.specs.Memory.{written, fits};
ghost use Rattle.hk_calls.specs.Answers.{Gave};
ghost use Rattle.hk_calls.specs.Outputs as outputs;

use crate::arguments::Pair;
use crate::code::Code;
use crate::rules::refuse;
use wa_num::Memory;

/// Puts bytes at the write pointer, where there is room for them, and answers how many they are.
pub fn put_out(memory: &mut Memory, write: Pair, bytes: &[u8]) -> i64
    requires room { length bytes.now ≤ write.count }
    ensures answer { result ≡ pos (length bytes.now) }
    ensures memory { memory.new ≡ written memory.old write.at bytes.now }
{
    let _fits = memory.write(write.at, bytes);
    bytes.len() as i64
}

/// Puts bytes at the write pointer, and answers how many they are.
///
/// # Errors
///
/// `TooSmall` where the write length is less than that.
pub fn write_out(memory: &mut Memory, write: Pair, bytes: &[u8]) -> Result<i64, Code>
    ensures { Gave memory.old memory.new result (outputs.write_out memory.old write bytes.now) }
{
    refuse((write.count as usize) < bytes.len(), Code::TooSmall)?;
    Ok(put_out(memory, write, bytes))
}

/// Puts bytes at the write pointer, and answers how many they are; or, where the write pointer and the write length
/// are both 0, answers the bytes as a number, the first byte the highest.
///
/// # Errors
///
/// `TooSmall` where the write length is less than that; `TooBig` where the number isn't a signed number of 64 bits.
pub fn write_or_number(memory: &mut Memory, write: Pair, bytes: &[u8]) -> Result<i64, Code>
    ensures { Gave memory.old memory.new result (outputs.write_or_number memory.old write bytes.now) }
{
    if write.at == 0 && write.count == 0 {
        return signed_number(bytes);
    }
    write_out(memory, write, bytes)
}

/// Bytes as a number, the first the highest.
fn signed_number(bytes: &[u8]) -> Result<i64, Code>
    ensures { result ≡ outputs.signed_number bytes.now }
{
    refuse(bytes.len() > 8, Code::TooBig)?;
    let number = u64::from_be_bytes(padded(bytes));
    i64::try_from(number).map_err(|_| Code::TooBig)
}

/// Zeros, and then the bytes.
fn padded(bytes: &[u8]) -> [u8; 8]
    requires { length bytes.now ≤ 8 }
    ensures { result ≡ replicate (8 - length bytes.now) 0 ++ bytes.now }
{
    let mut whole = [0; 8];
    whole[8 - bytes.len()..].copy_from_slice(bytes);
    whole
}
