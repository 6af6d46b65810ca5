ghost use Rattle.std.specs.Prelude.{◌≡◌, Option, Some, None};
ghost use Rattle.wa_decode.specs.CodeReading.{expression_at, opened};
ghost use Rattle.wa_decode.specs.ModuleReading.{body_at, code_at, locals_at};
ghost use Rattle.wa_decode.specs.Reading.{Gives};

use crate::fault::DecodeFault;
use crate::instructions::op;
use crate::numbers::number;
use crate::types::value_type;
use crate::vectors::{Spelled, text, vector};
use std::alloc::Global;
use std::marker::Model;
use wa_ops::{Code, Items, NoMemory, Op, ValueType};

/// The regions that are open at a place of flat code: of each, whether an `else` may still come in it.
#[derive(Drop)]
struct Around {
    may: Vec<bool>,
}

impl Model for Around {
    ghost use Rattle.std.specs.Coded.{coded_list, coded_bool};
    ghost use Rattle.std.specs.Prelude.{Bool, List, reverse};

    ghost Value = { List Bool };

    ghost coded = { coded_list coded_bool };

    /// The innermost first.
    ghost view = { λ a. reverse a.may.items };
}

impl Around {
    ghost use Rattle.std.specs.Prelude.{[], ◌∷◌, false, ◌↔◌, IsTrue, OnOk, MatchOption};
    ghost use Rattle.wa_decode.specs.CodeReading.{at_else, at_end};

    fn new(alloc: Global) -> Around
        ensures nothing { result ≡ [] }
    {
        Around {
            may: Vec::new(alloc),
        }
    }

    /// A region opens.
    fn enter(&mut self, may_turn: bool) -> Result<(), NoMemory>
        ensures opened { OnOk result (self.new ≡ may_turn ∷ self.old) }
    {
        self.may.push(may_turn)?;
        Ok(())
    }

    /// The innermost region turns to its second arm.
    fn turn(&mut self) -> Result<(), DecodeFault>
        ensures turned { Gives (λ _. self.new) result (at_else self.old) }
    {
        match self.may.pop() {
            Some(true) => {
                self.may.push(false)?;
                Ok(())
            }
            _ => Err(DecodeFault::Malformed),
        }
    }

    /// The innermost region closes.
    fn leave(&mut self) -> Result<(), DecodeFault>
        ensures closed { Gives (λ _. self.new) result (at_end self.old) }
    {
        match self.may.pop() {
            Some(_) => Ok(()),
            None => Err(DecodeFault::Malformed),
        }
    }

    fn is_empty(&self) -> bool
        ensures empty { IsTrue result ↔ (self.now ≡ []) }
    {
        self.may.is_empty()
    }
}

/// What an instruction does to the regions that are open.
fn pass(around: &mut Around, op: &Op) -> Result<(), DecodeFault>
    ensures passed { Gives (λ _. around.new) result (opened op.now around.old) }
{
    match op {
        Op::Block(_) => around.enter(false)?,
        Op::Loop(_) => around.enter(false)?,
        Op::If(_) => around.enter(true)?,
        Op::Else => around.turn()?,
        Op::End => around.leave()?,
        _ => {}
    }
    Ok(())
}

/// An expression: nested code up to its own `end`.
#[tactic(auto, unfolding(crate::specs::CodeReading::expression_at))]
pub(crate) fn expression(alloc: Global, bytes: &[u8]) -> Result<(Items<Op>, &[u8]), DecodeFault>
    ensures { Gives (λ x. (x.0, x.1.now)) result (expression_at bytes.now) }
{
    let mut ops = Items::new(alloc);
    let mut around = Around::new(alloc);
    around.enter(false)?;
    let mut rest = bytes;
    loop {
        let (op, after) = op(alloc, rest)?;
        pass(&mut around, &op)?;
        ops.push(op)?;
        rest = after;
        if around.is_empty() {
            return Ok((ops, rest));
        }
    }
}

/// A run of locals of one type.
struct LocalRuns;

impl Spelled for LocalRuns {
    type Value = (u32, ValueType);

    ghost at = { locals_at };

    fn read(_alloc: Global, bytes: &[u8]) -> Result<((u32, ValueType), &[u8]), DecodeFault> {
        locals(bytes)
    }
}

#[tactic(auto, unfolding(crate::specs::ModuleReading::locals_at))]
fn locals(bytes: &[u8]) -> Result<((u32, ValueType), &[u8]), DecodeFault>
    ensures { Gives (λ x. (x.0, x.1.now)) result (locals_at bytes.now) }
{
    let (count, rest) = number(bytes)?;
    let (kind, rest) = value_type(rest)?;
    Ok(((count, kind), rest))
}

/// A function's body, behind its size.
pub(crate) struct Codes;

impl Spelled for Codes {
    type Value = Code;

    ghost at = { code_at };

    fn read(alloc: Global, bytes: &[u8]) -> Result<(Code, &[u8]), DecodeFault> {
        code(alloc, bytes)
    }
}

#[tactic(auto, unfolding(crate::specs::ModuleReading::code_at, crate::specs::Reading::sized_at))]
fn code(alloc: Global, bytes: &[u8]) -> Result<(Code, &[u8]), DecodeFault>
    ensures { Gives (λ x. (x.0, x.1.now)) result (code_at bytes.now) }
{
    let (body, after) = text(bytes)?;
    let (code, rest) = function_body(alloc, body)?;
    if !rest.is_empty() {
        return Err(DecodeFault::Malformed);
    }
    Ok((code, after))
}

#[tactic(auto, unfolding(crate::specs::ModuleReading::body_at))]
fn function_body(alloc: Global, bytes: &[u8]) -> Result<(Code, &[u8]), DecodeFault>
    ensures { Gives (λ x. (x.0, x.1.now)) result (body_at bytes.now) }
{
    let (locals, rest) = vector::<LocalRuns>(alloc, bytes)?;
    let (ops, rest) = expression(alloc, rest)?;
    Ok((Code { locals, ops }, rest))
}
