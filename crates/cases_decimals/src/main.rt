//! Cases of decimals: `CALL OPERANDS = ANSWER`, decimals as their bits.
#![tactic(auto)]

use cases::{CaseFault, Family, Words};
use std::io;
use xfl::{Xfl, XflFault};

struct Decimals;

impl Family for Decimals {
    fn answer(&self, words: &mut Words<'_>) -> Result<String, CaseFault> {
        let call = words.word()?;
        match call {
            "from_bits" => {
                let bits = words.value()?;
                words.answer(Xfl::from_bits(bits).map(Xfl::bits).ok_or(NoDecimal))
            }
            "set" => {
                let exponent = words.value()?;
                let mantissa = words.value()?;
                words.answer(bits(xfl::set(exponent, mantissa)))
            }
            "from_drops" => from_drops(words),
            "mulratio" => {
                let x = decimal(words)?;
                let up = words.value()?;
                let num = words.value()?;
                let den = words.value()?;
                words.answer(bits(xfl::mulratio(x, up, num, den)))
            }
            "to_int" => {
                let x = decimal(words)?;
                let places = words.value()?;
                let absolute = words.value()?;
                words.answer(xfl::to_int(x, places, absolute))
            }
            _ => of_one(call, decimal(words)?, words),
        }
    }
}

/// The bits are of no decimal.
#[derive(Debug, Drop)]
struct NoDecimal;

fn bits(answer: Result<Xfl, XflFault>) -> Result<i64, XflFault> {
    answer.map(Xfl::bits)
}

// The decimal whose bits are the next word.
fn decimal(words: &mut Words<'_>) -> Result<Xfl, CaseFault> {
    Xfl::from_bits(words.value()?).ok_or(CaseFault::BadCase)
}

fn from_drops(words: &mut Words<'_>) -> Result<String, CaseFault> {
    let drops: u64 = words.value()?;
    if drops >= 1 << 62 {
        return Err(CaseFault::BadCase);
    }
    words.answer(bits(Ok(xfl::from_drops(drops))))
}

// The answer of a call of one decimal.
fn of_one(call: &str, x: Xfl, words: &mut Words<'_>) -> Result<String, CaseFault> {
    match call {
        "invert" => words.answer(bits(xfl::invert(x))),
        "mantissa" => Ok(format!(in words.alloc; "{}", x.mantissa())?),
        "sign" => Ok(format!(in words.alloc; "{}", x.sign())?),
        "negate" => words.answer(bits(Ok(x.negate()))),
        _ => of_two(call, x, decimal(words)?, words),
    }
}

// The answer of a call of two decimals.
fn of_two(call: &str, x: Xfl, y: Xfl, words: &Words<'_>) -> Result<String, CaseFault> {
    match call {
        "sum" => words.answer(bits(xfl::sum(x, y))),
        "multiply" => words.answer(bits(xfl::multiply(x, y))),
        "divide" => words.answer(bits(xfl::divide(x, y))),
        "compare" => Ok(format!(in words.alloc; "{:?}", x.compare(y))?),
        _ => Err(CaseFault::BadCase),
    }
}

fn main(rt: HostRuntime) -> io::Result<()> {
    cases::run(&rt, &Decimals)
}
