//! The operands of a run as untyped words.
ghost use Rattle.std.specs.Prelude.{ℕ, List, ◌≡◌, ◌+◌, ◌-◌, ◌∷◌, ◌++◌, ◌<◌, ◌≤◌, [], length, take, drop, reverse};
ghost use Rattle.std.specs.Prelude.{if◌then◌else◌, IfOk};
ghost use Rattle.wa_run.specs.Flat.{IsNarrow, carried_words};

use std::alloc::Global;
use std::marker::Model;
use wa_ops::NoMemory;

/// Words in memory that is taken once; contracts see them from the last pushed on.
#[derive(Debug, Drop)]
pub(crate) struct Words {
    /// The words that were pushed, and behind them room.
    words: Vec<u64>,
    /// How many words were pushed.
    height: usize,
}

impl Model for Words {
    ghost use Rattle.std.specs.Prelude.{◌≤◌, length, reverse, take};
    ghost use Rattle.wa_run.specs.Room.{Words};

    ghost Value = { Words };

    ghost view = { λ w. record { items = reverse (take w.height w.words.items); room = length w.words.items } };

    ghost invariant = { λ w. w.height ≤ length w.words.items };
}

impl Words {
    pub(crate) fn with_room(alloc: Global, room: usize) -> Result<Words, NoMemory>
        ensures empty { IfOk result (λ words. words.items ≡ []) }
        ensures room { IfOk result (λ words. room ≤ words.room) }
    {
        let words = vec![in alloc; 0; room]?;
        Ok(Words { words, height: 0 })
    }

    #[inline(always)]
    pub(crate) fn len(&self) -> usize
        ensures length { result ≡ length self.now.items }
    {
        self.height
    }

    #[inline(always)]
    pub(crate) fn push(&mut self, word: u64)
        requires room { length self.old.items < self.old.room }
        ensures items { self.new.items ≡ word ∷ self.old.items }
        ensures room { self.old.room ≤ self.new.room }
    {
        let height = self.height;
        self.words[height] = word;
        self.height = height + 1;
    }

    #[inline(always)]
    pub(crate) fn pop(&mut self) -> u64
        requires some { 0 < length self.old.items }
        ensures items { self.old.items ≡ result ∷ self.new.items }
        ensures room { self.old.room ≤ self.new.room }
    {
        self.height -= 1;
        self.words[self.height]
    }

    /// The last word, of 32 bits.
    #[inline(always)]
    pub(crate) fn pop_narrow(&mut self) -> u32
        requires narrow { IsNarrow self.old.items }
        ensures items { self.old.items ≡ result ∷ self.new.items }
        ensures room { self.old.room ≤ self.new.room }
    {
        self.pop() as u32
    }

    /// The last `count` words that were pushed, in order.
    #[inline(always)]
    pub(crate) fn last(&self, count: usize) -> &[u64]
        requires some { count ≤ length self.now.items }
        ensures words { result.now ≡ reverse (take count self.now.items) }
    {
        &self.words[self.height - count..self.height]
    }

    /// The last word that was pushed.
    #[inline(always)]
    pub(crate) fn top(&self) -> u64
        requires some { 0 < length self.now.items }
        ensures top { (word : ℕ) (words : List ℕ) → self.now.items ≡ word ∷ words → result ≡ word }
    {
        self.words[self.height - 1]
    }

    /// Keeps the first `height` words that were pushed.
    #[inline(always)]
    pub(crate) fn cut(&mut self, height: usize)
        requires height { height ≤ length self.old.items }
        ensures items { self.new.items ≡ drop (length self.old.items - height) self.old.items }
        ensures room { self.old.room ≤ self.new.room }
    {
        self.height = height;
    }

    /// Keeps the first `height` words that were pushed, and the last one where a result is carried.
    #[inline(always)]
    pub(crate) fn carry(&mut self, height: usize, carries: bool)
        requires height { (if carries then 1 else 0) + height ≤ length self.old.items }
        requires room { length self.old.items ≤ self.old.room }
        ensures items { self.new.items
            ≡ carried_words carries self.old.items ++ drop (length self.old.items - height) self.old.items }
        ensures room { self.old.room ≤ self.new.room }
    {
        if carries {
            let word = self.pop();
            self.cut(height);
            self.push(word);
        } else {
            self.cut(height);
        }
    }
}
