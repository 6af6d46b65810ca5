//! Parts and edits of objects.
use crate::field;
use cases::{CaseFault, Words, hex};
use xo_edit::{EditFault, emplace, erase, subarray, subfield, validate};

/// The longest result that is printed whole.
const LONGEST: usize = 64;

/// An object with a field, or without one: its bytes, or their number where they are many.
pub fn edited(call: &str, words: &mut Words<'_>) -> Result<String, CaseFault> {
    let bytes = words.bytes()?;
    match call {
        "emplace" => {
            let put = words.bytes()?;
            let field = field(words)?;
            printed(words, emplace(words.alloc, &bytes, &put, field))
        }
        _ => {
            let field = field(words)?;
            printed(words, erase(words.alloc, &bytes, field))
        }
    }
}

fn printed(words: &Words<'_>, edited: Result<Vec<u8>, EditFault>) -> Result<String, CaseFault> {
    match edited {
        Err(fault) => Ok(format!(in words.alloc; "{fault:?}")?),
        Ok(bytes) if bytes.len() > LONGEST => {
            Ok(format!(in words.alloc; "{} bytes", bytes.len())?)
        }
        Ok(bytes) => hex(words.alloc, &bytes),
    }
}

/// Where a field or an element stands, or whether the bytes are an object.
pub fn part(call: &str, words: &mut Words<'_>) -> Result<String, CaseFault> {
    let bytes = words.bytes()?;
    match call {
        "validate" => Ok(format!(in words.alloc; "{}", validate(&bytes))?),
        "subfield" => Ok(format!(in words.alloc; "{:?}", subfield(&bytes, field(words)?))?),
        _ => Ok(format!(in words.alloc; "{:?}", subarray(&bytes, words.value()?))?),
    }
}
