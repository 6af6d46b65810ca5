//! The numbers of a line of text.
ghost use Rattle.std.specs.Prelude.{◌≡◌, ◌≤◌, ◌^◌, IfOk, IfSome};
ghost use Rattle.wa_text.specs.Numbers.{IsBelow, signed_of, word_of};

use hk_lines::read_number;
use std::alloc::Global;
use wa_ops::NoMemory;

/// A number of 32 bits.
pub(crate) fn read_word(alloc: Global, word: &[u8]) -> Result<Option<u32>, NoMemory>
    ensures word { IfOk result (λ found. found ≡ word_of word.now) }
{
    match read_number(alloc, 0, 4_294_967_295, word)? {
        Some(number) => Ok(Some(number as u32)),
        None => Ok(None),
    }
}

/// A signed number from `-half` to `half - 1`.
pub(crate) fn read_signed(alloc: Global, half: u64, word: &[u8]) -> Result<Option<i64>, NoMemory>
    requires some { 1 ≤ half }
    requires most { half ≤ 2 ^ 63 }
    ensures number { IfOk result (λ found. found ≡ signed_of half word.now) }
    ensures range { IfOk result (λ found. IfSome found (λ number. IsBelow half number)) }
{
    let [first, digits @ ..] = word else {
        return Ok(None);
    };
    if *first == b'-' {
        match read_number(alloc, 1, half, digits)? {
            Some(number) => Ok(Some(-1 - (number - 1) as i64)),
            None => Ok(None),
        }
    } else {
        match read_number(alloc, 0, half - 1, word)? {
            Some(number) => Ok(Some(number as i64)),
            None => Ok(None),
        }
    }
}
