//! Calls on a world.
use crate::replays::tell_lines;
use cases::{CaseFault, Words, hex};
use hk_ledger::{World, open_account, open_ledger};

const MOST_DROPS: u64 = 100_000_000_000_000_000;

/// What commands on an empty world tell: `open ID BALANCE SEQUENCE`, `ledger SEQ TIME HASH`, `holding ID`, `header`,
/// `numbers` and `lines`.
pub fn told(words: &mut Words<'_>) -> Result<String, CaseFault> {
    let mut world = World::new(words.alloc);
    let mut told = String::new(words.alloc);
    for _ in 0..u64::MAX {
        if words.end().is_ok() {
            break;
        }
        if !told.is_empty() {
            told.push_str(", ")?;
        }
        match words.word()? {
            "open" => told.push_str(open(words, &mut world)?.as_str())?,
            "ledger" => {
                open_ledger(&mut world, words.value()?, words.value()?, &words.hash()?);
                told.push_str("ledger")?;
            }
            "lines" => {
                let lines = world.final_lines(words.alloc)?;
                tell_lines(&mut told, "lines", lines.as_slice())?;
            }
            call => told.push_str(look(call, words, &world)?.as_str())?,
        }
    }
    Ok(told)
}

// Opens an account.
fn open(words: &mut Words<'_>, world: &mut World) -> Result<String, CaseFault> {
    let id = words.account()?;
    let balance = words.value()?;
    let sequence = words.value()?;
    if balance > MOST_DROPS {
        return Err(CaseFault::BadCase);
    }
    match open_account(world, &id, balance, sequence) {
        Ok(()) => Ok(String::from_str(words.alloc, "opened")?),
        Err(fault) => Ok(format!(in words.alloc; "{fault}")?),
    }
}

// What a call without an effect answers.
fn look(call: &str, words: &mut Words<'_>, world: &World) -> Result<String, CaseFault> {
    let ledger = world.ledger();
    match call {
        "holding" => match ledger.holding(&words.account()?) {
            Some(held) => Ok(format!(in words.alloc; "{} {}", held.balance, held.sequence)?),
            None => Ok(String::from_str(words.alloc, "none")?),
        },
        "header" => {
            let header = ledger.header();
            let hash = hex(words.alloc, &header.last_hash.0)?;
            Ok(format!(in words.alloc; "{} {} {hash}", header.seq, header.time)?)
        }
        "numbers" => { Ok(format!(in words.alloc; "{} {}", ledger.next_number(), ledger.burnt())?) }
        _ => Err(CaseFault::BadCase),
    }
}
