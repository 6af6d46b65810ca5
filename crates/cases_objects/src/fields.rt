//! Headers, lengths, amounts and names of fields.
use crate::field;
use cases::{CaseFault, Words, hex};
use xo_fields::{
    AmountRead, FieldId, HeaderRead, LengthRead, field_by_name, read_amount, read_header,
    read_length, write_amount, write_header, write_length,
};

/// What stands at the front of bytes.
pub fn read(call: &str, words: &mut Words<'_>) -> Result<String, CaseFault> {
    let bytes = words.bytes()?;
    match call {
        "header" => Ok(format!(in words.alloc; "{:?}", read_header(&bytes, 0))?),
        "length" => Ok(format!(in words.alloc; "{:?}", read_length(&bytes, 0))?),
        _ => Ok(format!(in words.alloc; "{:?}", read_amount(&bytes, 0))?),
    }
}

/// What stands at the front of bytes, written again.
pub fn read_and_written(call: &str, words: &mut Words<'_>) -> Result<String, CaseFault> {
    let bytes = words.bytes()?;
    match call {
        "header_again" => header_again(words, &bytes),
        "length_again" => length_again(words, &bytes),
        _ => amount_again(words, &bytes),
    }
}

fn header_again(words: &Words<'_>, bytes: &[u8]) -> Result<String, CaseFault> {
    match read_header(bytes, 0) {
        HeaderRead::Header { field, .. } => {
            let (written, size) = write_header(field);
            hex(words.alloc, &written[..size])
        }
        _ => Err(CaseFault::BadCase),
    }
}

fn length_again(words: &Words<'_>, bytes: &[u8]) -> Result<String, CaseFault> {
    match read_length(bytes, 0) {
        LengthRead::Length { length, .. } => {
            let (written, size) = write_length(length);
            hex(words.alloc, &written[..size])
        }
        _ => Err(CaseFault::BadCase),
    }
}

fn amount_again(words: &Words<'_>, bytes: &[u8]) -> Result<String, CaseFault> {
    match read_amount(bytes, 0) {
        AmountRead::Amount { amount, .. } => {
            let (written, size) = write_amount(&amount);
            hex(words.alloc, &written[..size])
        }
        _ => Err(CaseFault::BadCase),
    }
}

/// Numbers and names of fields.
pub fn named(call: &str, words: &mut Words<'_>) -> Result<String, CaseFault> {
    match call {
        "number" => Ok(format!(in words.alloc; "{}", field(words)?.number())?),
        "from_number" => {
            Ok(format!(in words.alloc; "{:?}", FieldId::from_number(words.value()?))?)
        }
        _ => Ok(format!(in words.alloc; "{:?}", field_by_name(words.word()?.as_bytes()))?),
    }
}
