//! The operands, the variables and the memory of a run, and the plain instructions on them.
ghost use Rattle.std.specs.Prelude.{◌<◌, ◌==◌, ◌≡◌, ◌≤◌, if◌then◌else◌, length, slice_set};
ghost use Rattle.wa_run.specs.Acts.{Acts, Grows, Meets};

use crate::words::Words;
use wa_num::Memory;
use wa_ops::Op;

/// What plain instructions read and write.
#[derive(Debug, Drop)]
pub(crate) struct Store {
    pub(crate) words: Words,
    pub(crate) locals: Vec<u64>,
    pub(crate) globals: Vec<u64>,
    pub(crate) memory: Memory,
}

impl Store {
    #[inline(always)]
    pub(crate) fn constant32<S>(&mut self, number: i32)
        requires room { length self.old.words.items < self.old.words.room }
        ensures acts { Acts S (Op.I32Const number) self.old self.new }
        ensures grows { Grows self.old.words self.new.words }
    {
        self.words.push(u64::from(number.cast_unsigned()));
    }

    #[inline(always)]
    pub(crate) fn constant64<S>(&mut self, number: i64)
        requires room { length self.old.words.items < self.old.words.room }
        ensures acts { Acts S (Op.I64Const number) self.old self.new }
        ensures grows { Grows self.old.words self.new.words }
    {
        self.words.push(number.cast_unsigned());
    }

    /// The instruction `drop`.
    #[inline(always)]
    pub(crate) fn discard<S>(&mut self)
        requires meets { Meets S Op.Drop self.old }
        ensures acts { Acts S Op.Drop self.old self.new }
        ensures grows { Grows self.old.words self.new.words }
    {
        self.words.pop();
    }

    #[inline(always)]
    pub(crate) fn select<S>(&mut self)
        requires meets { Meets S Op.Select self.old }
        requires room { length self.old.words.items ≤ self.old.words.room }
        ensures acts { Acts S Op.Select self.old self.new }
        ensures grows { Grows self.old.words self.new.words }
    {
        let condition = self.words.pop();
        let other = self.words.pop();
        let one = self.words.pop();
        self.words.push(chosen(condition, one, other));
    }

    #[inline(always)]
    pub(crate) fn local_get<S>(&mut self, local: u32)
        requires meets { Meets S (Op.LocalGet local) self.old }
        requires room { length self.old.words.items < self.old.words.room }
        ensures acts { Acts S (Op.LocalGet local) self.old self.new }
        ensures grows { Grows self.old.words self.new.words }
    {
        self.words.push(self.locals[local as usize]);
    }

    #[inline(always)]
    pub(crate) fn local_set<S>(&mut self, local: u32)
        requires meets { Meets S (Op.LocalSet local) self.old }
        ensures acts { Acts S (Op.LocalSet local) self.old self.new }
        ensures grows { Grows self.old.words self.new.words }
    {
        let word = self.words.pop();
        put(&mut self.locals, local, word);
    }

    #[inline(always)]
    pub(crate) fn local_tee<S>(&mut self, local: u32)
        requires meets { Meets S (Op.LocalTee local) self.old }
        ensures acts { Acts S (Op.LocalTee local) self.old self.new }
        ensures grows { Grows self.old.words self.new.words }
    {
        let word = self.words.top();
        put(&mut self.locals, local, word);
    }

    #[inline(always)]
    pub(crate) fn global_get<S>(&mut self, global: u32)
        requires meets { Meets S (Op.GlobalGet global) self.old }
        requires room { length self.old.words.items < self.old.words.room }
        ensures acts { Acts S (Op.GlobalGet global) self.old self.new }
        ensures grows { Grows self.old.words self.new.words }
    {
        self.words.push(self.globals[global as usize]);
    }

    #[inline(always)]
    pub(crate) fn global_set<S>(&mut self, global: u32)
        requires meets { Meets S (Op.GlobalSet global) self.old }
        ensures acts { Acts S (Op.GlobalSet global) self.old self.new }
        ensures grows { Grows self.old.words self.new.words }
    {
        let word = self.words.pop();
        put(&mut self.globals, global, word);
    }

    #[inline(always)]
    pub(crate) fn memory_size<S>(&mut self)
        requires room { length self.old.words.items < self.old.words.room }
        ensures acts { Acts S Op.MemorySize self.old self.new }
        ensures grows { Grows self.old.words self.new.words }
    {
        self.words.push((self.memory.len() / 65_536) as u64);
    }
}

/// The operand that `select` leaves.
#[inline(always)]
fn chosen(condition: u64, one: u64, other: u64) -> u64
    ensures chosen { result ≡ (if condition == 0 then other else one) }
{
    if condition == 0 { other } else { one }
}

#[inline(always)]
fn put(variables: &mut Vec<u64>, place: u32, word: u64)
    requires place { place < length variables.old.items }
    ensures items { variables.new.items ≡ slice_set variables.old.items place word }
{
    variables[place as usize] = word;
}
