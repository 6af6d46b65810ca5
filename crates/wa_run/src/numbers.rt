//! The numeric instructions.
ghost use Rattle.std.specs.Prelude.{[], false, length, if◌then◌else◌, IfOk, IsTrue, ◌++◌, ◌<◌, ◌^◌, ◌∷◌, ◌≡◌, ◌≤◌};
ghost use Rattle.wa_machine.specs.Machine.{numeric, word32, word64};
ghost use Rattle.wa_ops.specs.Accesses.{number_gives, number_takes};
ghost use Rattle.wa_ops.specs.Opcodes.{is_number};
ghost use Rattle.wa_ops.specs.Soundness.{IsSoundOp};
ghost use Rattle.wa_ops.specs.declared.op.Op.{Op};
ghost use Rattle.wa_ops.specs.declared.op.ValueType.TheVariants.{I64};
ghost use Rattle.wa_run.specs.Acts.{ActsOr, Grows, Meets};
ghost use Rattle.wa_run.specs.Numbers.{is_narrow, kinds_of, taken_words};

use crate::store::Store;
use crate::words::Words;
use hk_base::Trap;
use wa_num::{binary32, binary64, compare32, compare64, convert, test32, test64, unary32, unary64};
use wa_ops::Op;

/// One dispatch on the opcode: each arm has it as a literal.
macro_rules! with_literal {
    ($opcode:expr, $store:expr, [$($literal:literal)*]) => {
        match $opcode {
            $($literal => $store.number_of::<S>($literal),)*
            other => $store.number_of::<S>(other),
        }
    };
}

impl Store {
    /// A numeric instruction.
    #[inline(never)]
    pub(crate) fn number<S>(&mut self, opcode: u8) -> Option<Trap>
        requires sound { IsSoundOp (Op.Number opcode) }
        requires meets { Meets S (Op.Number opcode) self.old }
        requires room { length self.old.words.items ≤ self.old.words.room }
        ensures acts { ActsOr S (Op.Number opcode) self.old result self.new }
        ensures grows { Grows self.old.words self.new.words }
    {
        with_literal!(opcode, self, [
            0x45 0x46 0x47 0x48 0x49 0x4A 0x4B 0x4C 0x4D 0x4E 0x4F 0x50
            0x51 0x52 0x53 0x54 0x55 0x56 0x57 0x58 0x59 0x5A 0x67 0x68
            0x69 0x6A 0x6B 0x6C 0x6D 0x6E 0x6F 0x70 0x71 0x72 0x73 0x74
            0x75 0x76 0x77 0x78 0x79 0x7A 0x7B 0x7C 0x7D 0x7E 0x7F 0x80
            0x81 0x82 0x83 0x84 0x85 0x86 0x87 0x88 0x89 0x8A 0xA7 0xAC
            0xAD 0xC0 0xC1 0xC2 0xC3 0xC4
        ])
    }

    /// A numeric instruction; where its opcode is a literal, little of this is left.
    #[inline(always)]
    fn number_of<S>(&mut self, opcode: u8) -> Option<Trap>
        requires sound { IsSoundOp (Op.Number opcode) }
        requires meets { Meets S (Op.Number opcode) self.old }
        requires room { length self.old.words.items ≤ self.old.words.room }
        ensures acts { ActsOr S (Op.Number opcode) self.old result self.new }
        ensures grows { Grows self.old.words self.new.words }
    {
        let operands = take(&mut self.words, is_paired(opcode));
        match calculated(opcode, operands.before, operands.last) {
            Ok(number) => {
                self.words.push(number);
                None
            }
            Err(cause) => Some(cause),
        }
    }
}

/// The operands of a numeric instruction; `before` is 0 where it has one.
#[derive(Clone, Copy)]
struct Operands {
    before: u64,
    last: u64,
}

#[inline(always)]
fn take(words: &mut Words, paired: bool) -> Operands
    requires some { 0 < length words.old.items }
    requires two { IsTrue paired → 1 < length words.old.items }
    ensures items { words.old.items ≡ taken_words paired result.before result.last ++ words.new.items }
    ensures one { paired ≡ false → result.before ≡ 0 }
    ensures room { words.old.room ≤ words.new.room }
{
    let last = words.pop();
    if paired {
        let before = words.pop();
        Operands { before, last }
    } else {
        Operands { before: 0, last }
    }
}

/// What a numeric instruction gives; `before` is 0 where it has one operand.
#[inline(always)]
fn calculated(opcode: u8, before: u64, last: u64) -> Result<u64, Trap>
    requires sound { IsTrue (is_number opcode) }
    requires narrow { IsTrue (is_narrow opcode) → (before < 2 ^ 32) × (last < 2 ^ 32) }
    ensures number { result ≡ numeric opcode (word64 last ∷ word64 before ∷ []) }
    ensures fits { (number_gives opcode ≡ I64 → ⊥) → IfOk result (λ n. n < 2 ^ 32) }
{
    if is_narrow(opcode) {
        calculated32(opcode, before as u32, last as u32)
    } else {
        calculated64(opcode, before, last)
    }
}

/// What an instruction with operands of `i32` gives; `before` is 0 where it has one operand.
#[inline(always)]
fn calculated32(opcode: u8, before: u32, last: u32) -> Result<u64, Trap>
    requires sound { IsTrue (is_number opcode) }
    requires narrow { IsTrue (is_narrow opcode) }
    ensures number { result ≡ numeric opcode (word32 last ∷ word32 before ∷ []) }
    ensures fits { (number_gives opcode ≡ I64 → ⊥) → IfOk result (λ n. n < 2 ^ 32) }
{
    match opcode {
        0x6A..=0x78 => widened(binary32(opcode, before, last)),
        0x67..=0x69 | 0xC0..=0xC1 => Ok(u64::from(unary32(opcode, last))),
        0x46..=0x4F => Ok(u64::from(compare32(opcode, before, last))),
        0x45 => Ok(u64::from(test32(last))),
        0xAC => Ok(convert(0xAC, u64::from(last))),
        0xAD => Ok(convert(0xAD, u64::from(last))),
        _ => unreachable!(),
    }
}

/// What an instruction with operands of `i64` gives; `before` is 0 where it has one operand.
#[inline(always)]
fn calculated64(opcode: u8, before: u64, last: u64) -> Result<u64, Trap>
    requires sound { IsTrue (is_number opcode) }
    requires wide { IsTrue (is_narrow opcode) → ⊥ }
    ensures number { result ≡ numeric opcode (word64 last ∷ word64 before ∷ []) }
    ensures fits { (number_gives opcode ≡ I64 → ⊥) → IfOk result (λ n. n < 2 ^ 32) }
{
    match opcode {
        0x7C..=0x8A => binary64(opcode, before, last),
        0x79..=0x7B | 0xC2..=0xC4 => Ok(unary64(opcode, last)),
        0x51..=0x5A => Ok(u64::from(compare64(opcode, before, last))),
        0x50 => Ok(u64::from(test64(last))),
        _ => Ok(convert(opcode, last)),
    }
}

#[inline(always)]
fn widened(number: Result<u32, Trap>) -> Result<u64, Trap>
    ensures same { result ≡ number }
    ensures fits { IfOk result (λ n. n < 2 ^ 32) }
{
    match number {
        Ok(number) => Ok(u64::from(number)),
        Err(cause) => Err(cause),
    }
}

/// Whether a numeric instruction has operands of `i32`.
#[inline(always)]
fn is_narrow(opcode: u8) -> bool
    ensures narrow { result ≡ is_narrow opcode }
{
    matches!(opcode, 0x45..=0x4F | 0x67..=0x78 | 0xAC | 0xAD | 0xC0..=0xC1)
}

/// Whether a numeric instruction has two operands.
#[inline(always)]
fn is_paired(opcode: u8) -> bool
    ensures takes { number_takes opcode ≡ kinds_of (is_narrow opcode) result }
{
    !matches!(
        opcode,
        0x45 | 0x50 | 0x67..=0x69 | 0x79..=0x7B | 0xA7 | 0xAC | 0xAD | 0xC0..=0xC4
    )
}
