//! Cases of the ledger's state: a line is a little script of commands, and its answer is what they tell, one after the
//! other.
#![tactic(auto)]

use cases::{CaseFault, Family, Words};
use hk_base::{AccountId, Hash256, Items};
use hk_state::{Entry, Key, Ledger, Overlay, fires};
use std::alloc::Global;
use std::cmp::Ordering;
use std::io;

/// A ledger, an overlay over it, and what was told so far.
#[derive(Drop)]
struct Script {
    alloc: Global,
    ledger: Ledger,
    overlay: Overlay,
    told: String,
}

struct State;

impl Family for State {
    fn answer(&self, words: &mut Words<'_>) -> Result<String, CaseFault> {
        let alloc = words.alloc;
        let mut script = Script {
            alloc,
            ledger: Ledger::new(alloc),
            overlay: Overlay::new(alloc),
            told: String::new(alloc),
        };
        for _ in 0..u64::MAX {
            if words.end().is_ok() {
                break;
            }
            script.command(words)?;
        }
        Ok(script.told)
    }
}

impl Script {
    fn command(&mut self, words: &mut Words<'_>) -> Result<(), CaseFault> {
        match words.word()? {
            "put" => {
                let key = key(words)?;
                let entry = entry(self.alloc, &key, words.value()?)?;
                self.overlay.put(key, entry)?;
            }
            "remove" => self.overlay.remove(key(words)?)?,
            "relist" => self.overlay.relist(),
            "copy" => self.overlay = self.overlay.copy()?,
            "commit" => self.commit()?,
            "list" => self.list()?,
            call => self.look(call, words)?,
        }
        Ok(())
    }

    fn commit(&mut self) -> Result<(), CaseFault> {
        let overlay = self.overlay.copy()?;
        self.overlay = Overlay::new(self.alloc);
        if self.ledger.next_number() < 1_000 && self.ledger.burnt() < 1_000 {
            self.ledger.commit(overlay, 2, 3)?;
        }
        Ok(())
    }

    // Tells each write that is listed.
    fn list(&mut self) -> Result<(), CaseFault> {
        for place in 0..usize::MAX {
            let Some((key, entry)) = self.overlay.write(place) else {
                break;
            };
            let told = told(self.alloc, key, entry)?;
            self.tell(told.as_str())?;
        }
        self.tell("/")
    }

    // Tells what a call without an effect answers.
    fn look(&mut self, call: &str, words: &mut Words<'_>) -> Result<(), CaseFault> {
        let told = match call {
            "numbers" => format!(in self.alloc;
                "{}:{}",
                self.ledger.next_number(),
                self.ledger.burnt()
            )?,
            "order" => order(self.alloc, words)?,
            "fires" => mask(self.alloc, words)?,
            _ => self.find(call, &key(words)?)?,
        };
        self.tell(told.as_str())
    }

    // What a look-up at a key finds.
    fn find(&self, call: &str, key: &Key) -> Result<String, CaseFault> {
        let found = match call {
            "get" => self
                .overlay
                .get(&self.ledger, key)
                .map(|entry| (key, entry)),
            "has" => self.ledger.get(key).map(|entry| (key, entry)),
            "from" => self.overlay.least_from(&self.ledger, key),
            "after" => self.overlay.least_after(&self.ledger, key),
            "kept_from" => self.ledger.least_from(key),
            "kept_after" => self.ledger.least_after(key),
            _ => return Err(CaseFault::BadCase),
        };
        match found {
            Some((key, entry)) => told(self.alloc, key, Some(entry)),
            None => Ok(String::from_str(self.alloc, "-")?),
        }
    }

    fn tell(&mut self, text: &str) -> Result<(), CaseFault> {
        if !self.told.is_empty() {
            self.told.push(' ')?;
        }
        self.told.push_str(text)?;
        Ok(())
    }
}

// A key as the letter of its kind and three numbers below 256; a kind with fewer parts leaves the last ones: `s 1 2 3`,
// `i 1 9 0`, `a 1 0 0`.
fn key(words: &mut Words<'_>) -> Result<Key, CaseFault> {
    let kind = words.word()?;
    let (first, second, third): (u8, u8, u8) = (words.value()?, words.value()?, words.value()?);
    match kind {
        "a" => Ok(Key::Account(AccountId([first; 20]))),
        "i" => Ok(Key::Install(AccountId([first; 20]), second)),
        "d" => Ok(Key::Definition(Hash256([first; 32]))),
        "s" => Ok(Key::State(
            AccountId([first; 20]),
            Hash256([second; 32]),
            Hash256([third; 32]),
        )),
        "e" => Ok(Key::Emitted(u64::from(first) * 256 + u64::from(second))),
        "o" => Ok(Key::Other([first; 60])),
        _ => Err(CaseFault::BadCase),
    }
}

// An entry of the kind of a key, with one number.
fn entry(alloc: Global, key: &Key, number: u8) -> Result<Entry, CaseFault> {
    let mut bytes = Items::new(alloc);
    bytes.push(number)?;
    match key {
        Key::Account(_) => Ok(Entry::Account {
            balance: u64::from(number),
            sequence: 1,
        }),
        Key::Install(_, _) => Ok(Entry::Install {
            hash: Hash256([number; 32]),
            on: Hash256([0; 32]),
            namespace: Hash256([0; 32]),
            parameters: Items::new(alloc),
            grants: Items::new(alloc),
        }),
        Key::Definition(_) => Ok(Entry::Definition {
            code: bytes,
            version: 0,
            bound_hook: u64::from(number),
            bound_cbak: None,
        }),
        Key::State(_, _, _) => Ok(Entry::State(bytes)),
        Key::Emitted(_) => Ok(Entry::Emitted {
            blob: bytes,
            hash: Hash256([0; 32]),
            first: u32::from(number),
            last: 0,
            callback: None,
        }),
        Key::Other(_) => Ok(Entry::Other(bytes)),
    }
}

// A key's letter and first number, and the number of its entry, if there is one.
fn told(alloc: Global, key: &Key, entry: Option<&Entry>) -> Result<String, CaseFault> {
    let name = name(alloc, key)?;
    match entry.map(number) {
        Some(number) => Ok(format!(in alloc; "{name}:{number}")?),
        None => Ok(format!(in alloc; "{name}:-")?),
    }
}

fn name(alloc: Global, key: &Key) -> Result<String, CaseFault> {
    match key {
        Key::Account(id) => Ok(format!(in alloc; "a.{}", id.0[0])?),
        Key::Install(id, position) => Ok(format!(in alloc; "i.{}.{position}", id.0[0])?),
        Key::Definition(hash) => Ok(format!(in alloc; "d.{}", hash.0[0])?),
        Key::State(id, namespace, key) => {
            Ok(format!(in alloc; "s.{}.{}.{}", id.0[0], namespace.0[0], key.0[0])?)
        }
        Key::Emitted(number) => Ok(format!(in alloc; "e.{number}")?),
        Key::Other(bytes) => Ok(format!(in alloc; "o.{}", bytes[0])?),
    }
}

fn number(entry: &Entry) -> u64 {
    match entry {
        Entry::Account { balance, .. } => *balance,
        Entry::Install { hash, .. } => u64::from(hash.0[0]),
        Entry::Definition { bound_hook, .. } => *bound_hook,
        Entry::Emitted { first, .. } => u64::from(*first),
        Entry::State(bytes) | Entry::Other(bytes) => {
            u64::from(bytes.as_slice().first().copied().unwrap_or(0))
        }
    }
}

fn order(alloc: Global, words: &mut Words<'_>) -> Result<String, CaseFault> {
    let one = key(words)?;
    let other = key(words)?;
    let order = match one.compare(&other) {
        Ordering::Less => "less",
        Ordering::Equal => "equal",
        Ordering::Greater => "greater",
    };
    Ok(String::from_str(alloc, order)?)
}

// Whether a mask of 32 bytes fires on a type.
fn mask(alloc: Global, words: &mut Words<'_>) -> Result<String, CaseFault> {
    let bytes = words.bytes()?;
    let kind = words.value()?;
    let mut mask = Hash256([0; 32]);
    for (byte, given) in mask.0.iter_mut().zip(&bytes) {
        *byte = *given;
    }
    Ok(format!(in alloc; "{}", fires(&mask, kind))?)
}

fn main(rt: HostRuntime) -> io::Result<()> {
    cases::run(&rt, &State)
}
