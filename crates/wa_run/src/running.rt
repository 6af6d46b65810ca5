//! A run under way, and the instructions that open, close and leave regions.
ghost use Rattle.std.specs.Prelude.{ℕ, ◌+◌, ◌<◌, ◌≤◌, ◌≡◌, ◌^◌, length, None, Some};
ghost use Rattle.wa_ops.specs.declared.op.Op.{Op};
ghost use Rattle.wa_machine.specs.Machine.{label_at};
ghost use Rattle.wa_run.specs.Flat.{IsMarker};
ghost use Rattle.wa_run.specs.Running.{Branches, CanBranch, CanTurn, Chooses, Turns, Widens};

use crate::guards::Guards;
use crate::label::{Label, Place, carries};
use crate::labels::Labels;
use crate::store::Store;
use hk_base::Trap;
use wa_ops::{Op, ValueType};

/// What `accept` and `rollback` tell: a code, and where in the memory their text stands.
#[derive(Clone, Copy, Debug, PartialEq, Eq)]
pub(crate) struct Message {
    pub(crate) code: i64,
    pub(crate) from: u32,
    pub(crate) size: u32,
}

/// Why a run stops.
#[derive(Clone, Copy, Debug, PartialEq, Eq)]
pub(crate) enum Stop {
    Accepted(Message),
    RolledBack(Message),
    Returned(i64),
    Trapped(Trap),
    GuardViolated { id: u32, limit: u32 },
}

/// A run under way, with all the memory that it takes.
#[derive(Debug, Drop)]
pub(crate) struct Running {
    /// The place of the instruction that comes next.
    pub(crate) at: usize,
    pub(crate) labels: Labels,
    pub(crate) guards: Guards,
    pub(crate) store: Store,
}

impl Running {
    /// Opens a `block`, whose `end` stands at `last`.
    #[inline(always)]
    pub(crate) fn block<S>(&mut self, carried: Option<ValueType>, last: u32)
        requires place { self.old.at < 2 ^ 63 }
        requires room { length self.old.labels.items < self.old.labels.room }
        ensures turns { Turns S (Op.Block carried) last self.old None self.new }
        ensures grows { Widens self.old self.new }
    {
        self.labels.open(Label {
            place: Place::Inner,
            last,
            height: self.store.words.len(),
            carries: carries(carried),
        });
        self.at += 1;
    }

    /// Opens a `loop`, whose `end` stands at `last`.
    #[inline(always)]
    pub(crate) fn loop_<S>(&mut self, carried: Option<ValueType>, last: u32)
        requires place { self.old.at < 2 ^ 63 }
        requires room { length self.old.labels.items < self.old.labels.room }
        ensures turns { Turns S (Op.Loop carried) last self.old None self.new }
        ensures grows { Widens self.old self.new }
    {
        self.labels.open(Label {
            place: Place::Loop(self.at + 1),
            last,
            height: self.store.words.len(),
            carries: carries(carried),
        });
        self.at += 1;
    }

    /// An `if` with this entry of the table of ends; where an `else` stands there, `other` is the place of its `end`.
    #[inline(never)]
    pub(crate) fn choose<S>(&mut self, carried: Option<ValueType>, entry: u32, other: Option<u32>)
        requires meets { CanTurn S (Op.If carried) self.old }
        requires place { self.old.at < 2 ^ 63 }
        requires room { length self.old.labels.items < self.old.labels.room }
        ensures chooses { Chooses S carried entry other self.old self.new }
        ensures grows { Widens self.old self.new }
    {
        let condition = self.store.words.pop();
        let label = Label {
            place: Place::Inner,
            last: last_of(entry, other),
            height: self.store.words.len(),
            carries: carries(carried),
        };
        if condition != 0 {
            self.labels.open(label);
            self.at += 1;
            return;
        }
        match other {
            Some(_) => {
                self.labels.open(label);
                self.at = entry as usize + 1;
            }
            None => self.at = entry as usize + 1,
        }
    }

    /// At an `end` or an `else`: closes the innermost region, or returns from the body.
    #[inline(always)]
    pub(crate) fn end<S>(&mut self) -> Option<Stop>
        requires turns { (instruction : Op) × IsMarker instruction × CanTurn S instruction self.old }
        ensures turns { (instruction : Op) → IsMarker instruction → (entry : ℕ) →
            Turns S instruction entry self.old result self.new }
        ensures grows { Widens self.old self.new }
    {
        let label = self.labels.close();
        if let Place::Body = label.place {
            return Some(Stop::Returned(self.store.words.top().cast_signed()));
        }
        self.at = label.last as usize + 1;
        None
    }

    /// Leaves the regions inside the one that `label` names, and goes on where that one says.
    #[inline(always)]
    pub(crate) fn branch<S>(&mut self, label: u32) -> Option<Stop>
        requires branches { CanBranch S label self.old }
        requires words_room { length self.old.store.words.items ≤ self.old.store.words.room }
        requires labels_room { length self.old.labels.items ≤ self.old.labels.room }
        ensures branches { Branches S label self.old result self.new }
        ensures grows { Widens self.old self.new }
    {
        self.labels.unwind(label as usize);
        let named = self.labels.innermost();
        match named.place {
            Place::Body => Some(Stop::Returned(self.store.words.top().cast_signed())),
            Place::Inner => {
                self.labels.close();
                self.store.words.carry(named.height, named.carries);
                self.at = named.last as usize + 1;
                None
            }
            Place::Loop(start) => {
                self.store.words.cut(named.height);
                self.at = start;
                None
            }
        }
    }

    /// The instruction `br_if`.
    #[inline(always)]
    pub(crate) fn branch_if<S>(&mut self, label: u32) -> Option<Stop>
        requires meets { CanTurn S (Op.BrIf label) self.old }
        requires place { self.old.at < 2 ^ 63 }
        requires words_room { length self.old.store.words.items ≤ self.old.store.words.room }
        requires labels_room { length self.old.labels.items ≤ self.old.labels.room }
        ensures turns { (entry : ℕ) → Turns S (Op.BrIf label) entry self.old result self.new }
        ensures grows { Widens self.old self.new }
    {
        let condition = self.store.words.pop();
        if condition == 0 {
            self.at += 1;
            return None;
        }
        self.branch::<S>(label)
    }

    /// The instruction `br_table`.
    #[inline(always)]
    pub(crate) fn branch_table<S>(&mut self, labels: &[u32], last: u32) -> Option<Stop>
        requires meets { CanTurn S (Op.BrTable labels.now last) self.old }
        requires words_room { length self.old.store.words.items ≤ self.old.store.words.room }
        requires labels_room { length self.old.labels.items ≤ self.old.labels.room }
        ensures turns { (entry : ℕ) → Turns S (Op.BrTable labels.now last) entry self.old result self.new }
        ensures grows { Widens self.old self.new }
    {
        let index = self.store.words.pop();
        self.branch::<S>(label_of(labels, last, index))
    }

    /// The instruction `return`.
    #[inline(always)]
    pub(crate) fn leave<S>(&self) -> Stop
        requires meets { CanTurn S Op.Return self.now }
        ensures turns { (entry : ℕ) → Turns S Op.Return entry self.now (Some result) self.now }
    {
        Stop::Returned(self.store.words.top().cast_signed())
    }
}

/// The label of a `br_table` at this index; past its list the last.
#[inline(always)]
fn label_of(labels: &[u32], last: u32, index: u64) -> u32
    ensures label { result ≡ label_at labels.now last index }
{
    if index < labels.len() as u64 {
        labels[index as usize]
    } else {
        last
    }
}

/// The place of the `end` of an `if`.
#[inline(always)]
fn last_of(entry: u32, other: Option<u32>) -> u32
    ensures none { other ≡ None → result ≡ entry }
    ensures some { (last : ℕ) → other ≡ Some last → result ≡ last }
{
    match other {
        Some(last) => last,
        None => entry,
    }
}
