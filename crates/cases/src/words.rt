//! The words of a case.
use hk_base::{AccountId, Hash256, NoMemory, hex_to_bytes, push_hex};
use std::alloc::Global;
use std::fmt::{Debug, Display};
use std::io;
use std::io::ErrorKind;
use std::str::FromStr;

/// Why a case has no answer.
#[derive(Clone, Copy, Debug, PartialEq, Eq)]
pub enum CaseFault {
    NoMemory,
    /// A word is missing, has another form, or is one too many.
    BadCase,
}

impl From<NoMemory> for CaseFault {
    fn from(_: NoMemory) -> CaseFault {
        CaseFault::NoMemory
    }
}

impl From<CaseFault> for io::Error {
    fn from(fault: CaseFault) -> io::Error {
        match fault {
            CaseFault::NoMemory => io::Error::from(ErrorKind::OutOfMemory),
            CaseFault::BadCase => io::Error::from(ErrorKind::InvalidData),
        }
    }
}

/// Bytes that later lines call by a name.
#[derive(Drop)]
pub(crate) struct Named {
    pub name: String,
    pub bytes: Vec<u8>,
}

/// The words of a case that are still to be read, and the allocator for what is made of them.
///
/// A word stands between spaces, or between double quotes, and has spaces then.
#[derive(Drop)]
pub struct Words<'a> {
    pub alloc: Global,
    rest: &'a str,
    names: &'a [Named],
}

impl<'a> Words<'a> {
    pub(crate) fn new(alloc: Global, names: &'a [Named], text: &'a str) -> Words<'a> {
        Words {
            alloc,
            rest: text,
            names,
        }
    }

    /// The next word.
    pub fn word(&mut self) -> Result<&'a str, CaseFault> {
        let text = self.rest.trim_start();
        let (word, rest) = match text.strip_prefix('"') {
            Some(quoted) => quoted.split_once('"').ok_or(CaseFault::BadCase)?,
            None if text.is_empty() => return Err(CaseFault::BadCase),
            None => text.split_once(' ').unwrap_or((text, "")),
        };
        self.rest = rest;
        Ok(word)
    }

    /// The next word as a number, or as another value that is read from text.
    pub fn value<T: FromStr>(&mut self) -> Result<T, CaseFault>
    where
        T::Err: Drop,
    {
        match self.word()?.parse::<T>() {
            Ok(value) => Ok(value),
            Err(_) => Err(CaseFault::BadCase),
        }
    }

    /// The next word as bytes: `-` for none, or parts with `+` between them. A part is hex digits, or `$` and the name
    /// of bytes; `*` and a count behind it say how often it comes.
    pub fn bytes(&mut self) -> Result<Vec<u8>, CaseFault> {
        let word = self.word()?;
        let mut bytes = Vec::new(self.alloc);
        if word != "-" {
            for part in word.split('+') {
                self.add_part(&mut bytes, part)?;
            }
        }
        Ok(bytes)
    }

    /// The next word as the 20 bytes of an account.
    pub fn account(&mut self) -> Result<AccountId, CaseFault> {
        let bytes = self.bytes()?;
        let id: [u8; 20] = bytes.as_slice().try_into().or(Err(CaseFault::BadCase))?;
        Ok(AccountId(id))
    }

    /// The next word as the 32 bytes of a hash.
    pub fn hash(&mut self) -> Result<Hash256, CaseFault> {
        let bytes = self.bytes()?;
        let hash: [u8; 32] = bytes.as_slice().try_into().or(Err(CaseFault::BadCase))?;
        Ok(Hash256(hash))
    }

    /// The next word as the two numbers of a field, as `2/4`.
    pub fn field(&mut self) -> Result<(u8, u8), CaseFault> {
        let (kind, code) = self.word()?.split_once('/').ok_or(CaseFault::BadCase)?;
        match (kind.parse::<u8>(), code.parse::<u8>()) {
            (Ok(kind), Ok(code)) => Ok((kind, code)),
            _ => Err(CaseFault::BadCase),
        }
    }

    // Adds the bytes of a part, as often as it comes.
    fn add_part(&self, bytes: &mut Vec<u8>, part: &str) -> Result<(), CaseFault> {
        let (text, count) = match part.split_once('*') {
            Some((text, count)) => (text, count.parse::<u32>().or(Err(CaseFault::BadCase))?),
            None => (part, 1),
        };
        let read = self.part(text)?;
        for _ in 0..count {
            bytes.extend_from_slice(&read)?;
        }
        Ok(())
    }

    // The bytes of hex digits, or of a name.
    fn part(&self, text: &str) -> Result<Vec<u8>, CaseFault> {
        if let Some(name) = text.strip_prefix('$') {
            let named = self.names.iter().find(|named| named.name.as_str() == name);
            let bytes = named.ok_or(CaseFault::BadCase)?.bytes.as_slice();
            return Ok(Vec::from_slice(self.alloc, bytes)?);
        }
        hex_to_bytes(self.alloc, text.as_bytes())?.ok_or(CaseFault::BadCase)
    }

    /// Nothing, where no word is left.
    pub fn end(&mut self) -> Result<(), CaseFault> {
        match self.rest.trim_start().is_empty() {
            true => Ok(()),
            false => Err(CaseFault::BadCase),
        }
    }

    /// A value as an answer, or the name of the fault.
    pub fn answer<T: Display + Drop, E: Debug + Drop>(
        &self,
        value: Result<T, E>,
    ) -> Result<String, CaseFault> {
        match value {
            Ok(value) => Ok(format!(in self.alloc; "{value}")?),
            Err(fault) => Ok(format!(in self.alloc; "{fault:?}")?),
        }
    }
}

/// Bytes as hex digits, and `-` for none.
pub fn hex(alloc: Global, bytes: &[u8]) -> Result<String, CaseFault> {
    if bytes.is_empty() {
        return Ok(String::from_str(alloc, "-")?);
    }
    let mut digits = Vec::new(alloc);
    push_hex(&mut digits, bytes)?;
    String::from_utf8(digits).or(Err(CaseFault::BadCase))
}
