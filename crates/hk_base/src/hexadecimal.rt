//! Hex text.
ghost use Rattle.std.specs.Prelude.{◌≡◌, ◌⊎◌, ◌+◌, ◌*◌, ◌%◌, ◌++◌, ◌↔◌, length, take, Any, IfOk, IsNone, OnErr, OnOk};
ghost use Rattle.std.specs.Option.{option_map};
ghost use Rattle.hk_base.specs.Hexadecimal.{digit_value, hex_bytes, hex_text};

use crate::NoMemory;
use hex::FromHexError;
use std::alloc::{AllocError, Global};

/// The bytes that a text of hex digits of either case stands for, two digits a byte. The answer is `None` exactly where
/// the number of characters is odd or one of them isn't a hex digit.
pub fn hex_to_bytes(alloc: Global, text: &[u8]) -> Result<Option<Vec<u8>>, NoMemory>
    ensures bytes { IfOk result (λ found. option_map (λ bytes. bytes.items) found ≡ hex_bytes text.now) }
    ensures refused { IfOk result (λ found. IsNone found ↔
        ((length text.now % 2 ≡ 1) ⊎ Any (λ character. digit_value character ≡ None) text.now)) }
{
    match hex::decode(alloc, text) {
        Ok(bytes) => Ok(Some(bytes)),
        Err(error) => match error {
            FromHexError::OutOfMemory => Err(AllocError),
            _ => Ok(None),
        },
    }
}

/// Appends two lower-case digits for each byte. A refused call leaves `out` as it was.
pub fn push_hex(out: &mut Vec<u8>, bytes: &[u8]) -> Result<(), NoMemory>
    ensures ok { OnOk result (out.new.items ≡ out.old.items ++ hex_text bytes.now) }
    ensures err { OnErr result (out.new.items ≡ out.old.items) }
{
    let start = out.len();
    out.reserve(2 * bytes.len())?;
    out.resize(start + 2 * bytes.len(), 0)?;
    write_digits(out, start, bytes);
    Ok(())
}

// Writes the digits of the bytes over all that stands from `start` on.
fn write_digits(text: &mut [u8], start: usize, bytes: &[u8])
    requires room { length text.old ≡ start + 2 * length bytes.now }
    ensures digits { text.new ≡ take start text.old ++ hex_text bytes.now }
{
    match hex::encode_to_slice(bytes, &mut text[start..]) {
        Ok(()) => {}
        Err(_) => unreachable!(),
    }
}
