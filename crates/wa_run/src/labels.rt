//! The open regions of flat code.
ghost use Rattle.std.specs.Prelude.{◌≡◌, ◌∷◌, ◌<◌, ◌≤◌, [], Some, slice_get, length, drop, IfOk};

use crate::label::{BODY, Label};
use std::alloc::Global;
use std::marker::Model;
use wa_ops::NoMemory;

/// Labels in memory that is taken once; contracts see the innermost first.
#[derive(Debug, Drop)]
pub(crate) struct Labels {
    /// The regions that are open, and behind them room.
    labels: Vec<Label>,
    /// How many regions are open.
    depth: usize,
}

impl Model for Labels {
    ghost use Rattle.std.specs.Prelude.{◌≤◌, length, reverse, take};
    ghost use Rattle.wa_run.specs.Room.{Labels};

    ghost Value = { Labels };

    ghost view = { λ l. record { items = reverse (take l.depth l.labels.items); room = length l.labels.items } };

    ghost invariant = { λ l. l.depth ≤ length l.labels.items };
}

impl Labels {
    pub(crate) fn with_room(alloc: Global, room: usize) -> Result<Labels, NoMemory>
        ensures empty { IfOk result (λ labels. labels.items ≡ []) }
        ensures room { IfOk result (λ labels. room ≤ labels.room) }
    {
        let labels = vec![in alloc; BODY; room]?;
        Ok(Labels { labels, depth: 0 })
    }

    #[inline(always)]
    pub(crate) fn open(&mut self, label: Label)
        requires room { length self.old.items < self.old.room }
        ensures items { self.new.items ≡ label ∷ self.old.items }
        ensures room { self.old.room ≤ self.new.room }
    {
        let depth = self.depth;
        self.labels[depth] = label;
        self.depth = depth + 1;
    }

    /// Closes the innermost region.
    #[inline(always)]
    pub(crate) fn close(&mut self) -> Label
        requires some { 0 < length self.old.items }
        ensures items { self.old.items ≡ result ∷ self.new.items }
        ensures room { self.old.room ≤ self.new.room }
    {
        self.depth -= 1;
        self.labels[self.depth]
    }

    /// The innermost region.
    #[inline(always)]
    pub(crate) fn innermost(&self) -> Label
        requires some { 0 < length self.now.items }
        ensures items { self.now.items ≡ result ∷ drop 1 self.now.items }
    {
        self.labels[self.depth - 1]
    }

    /// Closes the `count` innermost regions.
    #[inline(always)]
    pub(crate) fn unwind(&mut self, count: usize)
        requires some { count ≤ length self.old.items }
        ensures items { self.new.items ≡ drop count self.old.items }
        ensures room { self.old.room ≤ self.new.room }
    {
        self.depth -= count;
    }
}
