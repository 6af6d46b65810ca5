//! What a line reads as.
use cases::{CaseFault, hex};
use hk_lines::{InputLine, read_line};
use std::alloc::Global;

/// The longest bytes that are printed whole.
const LONGEST: usize = 64;

/// A line by its parts, or its fault.
pub fn told(alloc: Global, line: &[u8]) -> Result<String, CaseFault> {
    match read_line(alloc, line) {
        Ok(line) => told_line(alloc, &line),
        Err(fault) => Ok(format!(in alloc; "{fault:?}")?),
    }
}

fn told_line(alloc: Global, line: &InputLine) -> Result<String, CaseFault> {
    match line {
        InputLine::Account {
            id,
            balance,
            sequence,
        } => Ok(format!(in alloc; "account {} {balance} {sequence}", hex(alloc, &id.0)?)?),
        InputLine::Ledger {
            seq,
            time,
            last_hash,
        } => Ok(format!(in alloc; "ledger {seq} {time} {}", hex(alloc, &last_hash.0)?)?),
        InputLine::Tx { verdict, blob } => {
            Ok(format!(in alloc; "tx {verdict:?} {}", shown(alloc, blob.as_slice())?)?)
        }
        InputLine::Hook { code } => {
            Ok(format!(in alloc; "hook {}", shown(alloc, code.as_slice())?)?)
        }
        InputLine::End => Ok(String::from_str(alloc, "end")?),
    }
}

/// Bytes as hex digits, or their number where they are many.
pub fn shown(alloc: Global, bytes: &[u8]) -> Result<String, CaseFault> {
    if bytes.len() > LONGEST {
        return Ok(format!(in alloc; "{} bytes", bytes.len())?);
    }
    hex(alloc, bytes)
}
