//! How lines are printed.
use crate::names;
use cases::{CaseFault, Words};
use hk_base::{AccountId, Items, Outcome};
use hk_lines::{OutputLine, print_line};
use std::str;

/// The text of a line that is printed while the input is read.
pub fn printed(words: &mut Words<'_>) -> Result<String, CaseFault> {
    let line = match words.word()? {
        "run" => OutputLine::Run {
            outcome: outcome(words)?,
            count: words.value()?,
            bound: words.value()?,
        },
        "ledger" => OutputLine::Ledger {
            seq: words.value()?,
        },
        "tx" => OutputLine::Tx {
            number: words.value()?,
            result: names::result(words)?,
            fee: words.value()?,
        },
        "settled" => OutputLine::Settled {
            number: words.value()?,
            word: names::settlement(words)?,
            result: names::result_or_none(words)?,
            fee: words.value()?,
        },
        "emit" => OutputLine::Emit {
            number: words.value()?,
            first: words.value()?,
            last: words.value()?,
        },
        word => of_account(word, words.account()?, words)?,
    };
    text(words, &line)
}

// A line that begins with an account.
fn of_account(
    word: &str,
    account: AccountId,
    words: &mut Words<'_>,
) -> Result<OutputLine, CaseFault> {
    match word {
        "hook" => Ok(OutputLine::Hook {
            account,
            position: words.value()?,
            outcome: outcome(words)?,
            count: words.value()?,
            bound: words.value()?,
        }),
        "callback" => Ok(OutputLine::Callback {
            account,
            position: words.value()?,
            outcome: outcome(words)?,
            count: words.value()?,
            bound: words.value()?,
        }),
        "state" => Ok(OutputLine::State {
            account,
            namespace: words.hash()?,
            key: words.hash()?,
            value: value_or_none(words)?,
        }),
        _ => Err(CaseFault::BadCase),
    }
}

/// The text of a line that is printed at the end.
pub fn printed_at_the_end(words: &mut Words<'_>) -> Result<String, CaseFault> {
    let line = match words.word()? {
        "account" => OutputLine::FinalAccount {
            id: words.account()?,
            balance: words.value()?,
            sequence: words.value()?,
            hooks: words.value()?,
            states: words.value()?,
        },
        "install" => OutputLine::FinalInstall {
            account: words.account()?,
            position: words.value()?,
            hash: words.hash()?,
            namespace: words.hash()?,
        },
        "state" => OutputLine::FinalState {
            account: words.account()?,
            namespace: words.hash()?,
            key: words.hash()?,
            value: items(words)?,
        },
        "queued" => OutputLine::FinalQueued {
            number: words.value()?,
            first: words.value()?,
            last: words.value()?,
        },
        "total" => OutputLine::FinalTotal {
            balances: words.value()?,
            burnt: words.value()?,
        },
        "done" => OutputLine::Done,
        _ => return Err(CaseFault::BadCase),
    };
    text(words, &line)
}

// The text of a line, without the line feed that ends it.
fn text(words: &Words<'_>, line: &OutputLine) -> Result<String, CaseFault> {
    let mut out = Vec::new(words.alloc);
    print_line(&mut out, line)?;
    let text = str::from_utf8(&out).or(Err(CaseFault::BadCase))?;
    let text = text.strip_suffix('\n').ok_or(CaseFault::BadCase)?;
    Ok(String::from_str(words.alloc, text)?)
}

fn outcome(words: &mut Words<'_>) -> Result<Outcome, CaseFault> {
    match words.word()? {
        "accepted" => Ok(Outcome::Accepted {
            code: words.value()?,
            text: items(words)?,
        }),
        "rolledback" => Ok(Outcome::RolledBack {
            code: words.value()?,
            text: items(words)?,
        }),
        "returned" => Ok(Outcome::Returned {
            code: words.value()?,
        }),
        "trapped" => Ok(Outcome::Trapped(names::trap(words)?)),
        "guard" => Ok(Outcome::GuardViolated {
            id: words.value()?,
            limit: words.value()?,
        }),
        _ => Err(CaseFault::BadCase),
    }
}

fn items(words: &mut Words<'_>) -> Result<Items<u8>, CaseFault> {
    Ok(Items::from_vec(words.bytes()?))
}

// Bytes, or no value where there are none.
fn value_or_none(words: &mut Words<'_>) -> Result<Option<Items<u8>>, CaseFault> {
    let bytes = words.bytes()?;
    if bytes.is_empty() {
        return Ok(None);
    }
    Ok(Some(Items::from_vec(bytes)))
}
