//! A family of calls, and going through its cases.
use crate::words::Named;
use crate::{CaseFault, Words};
use std::alloc::{AllocError, Global};
use std::io;
use std::io::{BufRead, BufReader};

/// Calls whose cases stand in one file.
pub trait Family {
    /// The printed answer of the call that the words name.
    fn answer(&self, words: &mut Words<'_>) -> Result<String, CaseFault>;
}

/// Goes through the lines of the input, prints each case that differs, and at the end how many cases there are and how
/// many of them differ.
///
/// A case is `WORDS = ANSWER`, and `NAME := BYTES` names bytes for later lines. Empty lines, and those that begin with
/// `#`, are no cases.
pub fn run<F: Family>(rt: &(impl Input + Print + AllocGlobal), family: &F) -> io::Result<()> {
    let alloc = rt.alloc();
    let mut names = Vec::new(alloc);
    let mut cases = 0u64;
    let mut differ = 0u64;
    for line in BufReader::new(alloc, rt.reader())?.lines(alloc) {
        let line = line?;
        if line.is_empty() || line.starts_with('#') {
            continue;
        }
        if let Some((name, bytes)) = line.split_once(" := ") {
            names.push(named(alloc, &names, name, bytes)?)?;
            continue;
        }
        cases = cases.saturating_add(1);
        if let Some(found) = difference(alloc, family, &names, line.as_str())? {
            differ = differ.saturating_add(1);
            println!(rt; "{line}, not {found}")?;
        }
    }
    println!(rt; "{cases} cases, {differ} differ")
}

// The answer of a line's call, where it isn't the wanted one.
fn difference<F: Family>(
    alloc: Global,
    family: &F,
    names: &[Named],
    line: &str,
) -> Result<Option<String>, AllocError> {
    let (text, wanted) = line.split_once(" = ").unwrap_or((line, ""));
    let mut words = Words::new(alloc, names, text);
    let found = match family.answer(&mut words) {
        Ok(found) => found,
        Err(fault) => format!(in alloc; "{fault:?}")?,
    };
    match words.end() {
        Ok(()) if found.as_str() == wanted => Ok(None),
        _ => Ok(Some(found)),
    }
}

// Bytes under their name.
fn named(alloc: Global, names: &[Named], name: &str, text: &str) -> Result<Named, CaseFault> {
    Ok(Named {
        name: String::from_str(alloc, name)?,
        bytes: Words::new(alloc, names, text).bytes()?,
    })
}
