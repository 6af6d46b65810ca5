//! The numbers and bytes that a word spells.
ghost use Rattle.std.specs.Prelude.{◌≡◌, ◌≤◌, map, IfOk, IfSome};
ghost use Rattle.hk_lines.specs.Words.{words_of, number_of, sized_bytes_of, some_bytes_of};

use hex::FromHex;
use hk_base::{Items, NoMemory, hex_to_bytes};
use std::alloc::Global;
use std::str;

/// The number of a word in decimal, without sign and leading zeros, from `least` to `most`.
///
/// # Errors
///
/// Want of memory alone.
pub fn read_number(
    alloc: Global,
    least: u64,
    most: u64,
    word: &[u8],
) -> Result<Option<u64>, NoMemory>
    ensures number { IfOk result (λ found. found ≡ number_of least most word.now) }
    ensures range { IfOk result (λ found. IfSome found (λ number. (least ≤ number) × (number ≤ most))) }
{
    let Ok(text) = str::from_utf8(word) else {
        return Ok(None);
    };
    let Ok(number) = text.parse::<u64>() else {
        return Ok(None);
    };
    let printed = number.to_string(alloc)?;
    if printed.as_bytes() == word && least <= number && number <= most {
        Ok(Some(number))
    } else {
        Ok(None)
    }
}

/// The bytes of a word in hex digits of either case, where there are `N`.
pub(crate) fn read_sized<const N: usize>(word: &[u8]) -> Option<[u8; N]>
    ensures bytes { result ≡ sized_bytes_of N word.now }
{
    <[u8; N] as FromHex>::from_hex(word).ok()
}

/// The bytes of a word in hex digits of either case, where there is one.
///
/// # Errors
///
/// Want of memory alone.
pub fn read_bytes(alloc: Global, word: &[u8]) -> Result<Option<Items<u8>>, NoMemory>
    ensures bytes { IfOk result (λ found. found ≡ some_bytes_of word.now) }
{
    let Some(bytes) = hex_to_bytes(alloc, word)? else {
        return Ok(None);
    };
    if bytes.is_empty() {
        return Ok(None);
    }
    Ok(Some(Items::from_vec(bytes)))
}

/// The words of a line, which are separated by one space each.
///
/// # Errors
///
/// Want of memory alone.
pub fn split_words<'a>(alloc: Global, line: &'a [u8]) -> Result<Vec<&'a [u8]>, NoMemory>
    ensures words { IfOk result (λ words. map (λ word. word.now) words.items ≡ words_of line.now) }
{
    line.split(|byte| *byte == b' ').collect(alloc)
}
