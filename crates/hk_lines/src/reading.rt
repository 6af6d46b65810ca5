//! Reading lines.
ghost use Rattle.std.specs.Prelude.{◌≡◌, ◌⊎◌, map, IfOk};
ghost use Rattle.hk_lines.specs.InputForms.{account_of, ledger_of, verdict_of, tx_of, hook_of, end_of, words_read};
ghost use Rattle.hk_lines.specs.InputForms.{line_read};

use crate::limits::{LONGEST_LINE, MOST_DROPS};
use crate::words::{read_bytes, read_number, read_sized, split_words};
use crate::{InputLine, LineFault, Verdict};
use hk_base::{AccountId, Hash256, NoMemory};
use std::alloc::Global;

/// Reads a line, without its line feed and the carriage return before it.
///
/// A line of more than 2,097,152 bytes is `TooLong`, one whose first word is the name of no form is `BadWord`, and one
/// whose other words aren't those of its form is `BadShape`.
pub fn read_line(alloc: Global, line: &[u8]) -> Result<InputLine, LineFault>
    ensures read { (result ≡ line_read line.now) ⊎ (result ≡ Err LineFault.NoMemory) }
{
    if line.len() > LONGEST_LINE {
        return Err(LineFault::TooLong);
    }
    let words = split_words(alloc, line)?;
    read_words(alloc, &words)
}

// Reads the words of a line.
fn read_words(alloc: Global, words: &[&[u8]]) -> Result<InputLine, LineFault>
    ensures read { (result ≡ words_read (map (λ word. word.now) words.now)) ⊎ (result ≡ Err LineFault.NoMemory) }
{
    let [name, parts @ ..] = words else {
        return Err(LineFault::BadWord);
    };
    let found = if *name == b"account".as_slice() {
        read_account(alloc, parts)?
    } else if *name == b"ledger".as_slice() {
        read_ledger(alloc, parts)?
    } else if *name == b"tx".as_slice() {
        read_tx(alloc, parts)?
    } else if *name == b"hook".as_slice() {
        read_hook(alloc, parts)?
    } else if *name == b"end".as_slice() {
        read_end(parts)
    } else {
        return Err(LineFault::BadWord);
    };
    found.ok_or(LineFault::BadShape)
}

fn read_account(alloc: Global, parts: &[&[u8]]) -> Result<Option<InputLine>, NoMemory>
    ensures line { IfOk result (λ found. found ≡ account_of (map (λ word. word.now) parts.now)) }
{
    let [id, balance, sequence] = parts else {
        return Ok(None);
    };
    let Some(id) = read_sized::<20>(id) else {
        return Ok(None);
    };
    let Some(balance) = read_number(alloc, 0, MOST_DROPS, balance)? else {
        return Ok(None);
    };
    let Some(sequence) = read_number(alloc, 1, 4_294_967_294, sequence)? else {
        return Ok(None);
    };
    Ok(Some(InputLine::Account {
        id: AccountId(id),
        balance,
        sequence: sequence as u32,
    }))
}

fn read_ledger(alloc: Global, parts: &[&[u8]]) -> Result<Option<InputLine>, NoMemory>
    ensures line { IfOk result (λ found. found ≡ ledger_of (map (λ word. word.now) parts.now)) }
{
    let [seq, time, last_hash] = parts else {
        return Ok(None);
    };
    let Some(seq) = read_number(alloc, 1, 4_294_967_000, seq)? else {
        return Ok(None);
    };
    let Some(time) = read_number(alloc, 0, 4_294_967_295, time)? else {
        return Ok(None);
    };
    let Some(last_hash) = read_sized::<32>(last_hash) else {
        return Ok(None);
    };
    Ok(Some(InputLine::Ledger {
        seq: seq as u32,
        time: time as u32,
        last_hash: Hash256(last_hash),
    }))
}

fn read_tx(alloc: Global, parts: &[&[u8]]) -> Result<Option<InputLine>, NoMemory>
    ensures line { IfOk result (λ found. found ≡ tx_of (map (λ word. word.now) parts.now)) }
{
    let [verdict, blob] = parts else {
        return Ok(None);
    };
    let Some(verdict) = read_verdict(verdict) else {
        return Ok(None);
    };
    let Some(blob) = read_bytes(alloc, blob)? else {
        return Ok(None);
    };
    Ok(Some(InputLine::Tx { verdict, blob }))
}

fn read_verdict(word: &[u8]) -> Option<Verdict>
    ensures verdict { result ≡ verdict_of word.now }
{
    if word == b"good".as_slice() {
        Some(Verdict::Good)
    } else if word == b"bad".as_slice() {
        Some(Verdict::Bad)
    } else {
        None
    }
}

fn read_hook(alloc: Global, parts: &[&[u8]]) -> Result<Option<InputLine>, NoMemory>
    ensures line { IfOk result (λ found. found ≡ hook_of (map (λ word. word.now) parts.now)) }
{
    let [code] = parts else {
        return Ok(None);
    };
    let Some(code) = read_bytes(alloc, code)? else {
        return Ok(None);
    };
    Ok(Some(InputLine::Hook { code }))
}

fn read_end(parts: &[&[u8]]) -> Option<InputLine>
    ensures line { result ≡ end_of (map (λ word. word.now) parts.now) }
{
    if parts.is_empty() {
        Some(InputLine::End)
    } else {
        None
    }
}
