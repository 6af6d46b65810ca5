//! How often a run passed each guard.
ghost use Rattle.std.specs.Prelude.{ℕ, ◌≡◌, ◌<◌, ◌≤◌, ◌+◌, ◌^◌, ◌∷◌, [], Some, length, nat_lt, slice_get, vec_capacity};
ghost use Rattle.std.specs.Prelude.{IfOk, IsTrue};
ghost use Rattle.wa_run.specs.declared.counter.Counter.{Counter};
ghost use Rattle.wa_machine.specs.Machine.{counted};
ghost use Rattle.wa_run.specs.Guards.{first_counter, passes_of, with_counter};

use crate::counter::{Counter, Spot, spot_of, with_child};
use std::alloc::Global;
use std::marker::Model;
use wa_ops::NoMemory;

/// The counter that a search begins with; it stands for the id 0, which was not passed.
const FIRST: Counter = Counter {
    id: 0,
    passes: 0,
    even: 0,
    odd: 0,
};

/// How often each guard was passed, in memory that is taken once.
#[derive(Debug, Drop)]
pub(crate) struct Guards {
    counters: Vec<Counter>,
    /// How many counters there is room for beside the first.
    room: u32,
}

impl Model for Guards {
    ghost use Rattle.std.specs.Prelude.{◌+◌, ◌≤◌, vec_capacity};
    ghost use Rattle.wa_run.specs.Guards.{Guards, IsTree};

    ghost Value = { Guards };

    ghost view = { λ g. record { items = g.counters.items; room = g.room + 1 } };

    ghost invariant = { λ g. IsTree g.counters.items × (g.room + 1 ≤ vec_capacity g.counters) };
}

impl Guards {
    /// Takes memory for the counters of so many ids.
    pub(crate) fn with_room(alloc: Global, room: u32) -> Result<Guards, NoMemory>
        ensures first { IfOk result (λ guards. guards.items ≡ first_counter ∷ []) }
        ensures room { IfOk result (λ guards. guards.room ≡ room + 1) }
    {
        let mut counters = Vec::with_capacity(alloc, room as usize + 1)?;
        counters.push(FIRST)?;
        Ok(Guards { counters, room })
    }

    /// Counts one pass more of `id` where there were fewer than `limit`, and tells whether there were.
    #[inline(never)]
    pub(crate) fn pass(&mut self, id: u32, limit: u32) -> bool
        requires room { length self.old.items < self.old.room }
        ensures passes { result ≡ nat_lt (passes_of self.old.items id) limit }
        ensures counts { IsTrue result → (other : ℕ) →
            passes_of self.new.items other ≡ counted id (passes_of self.old.items) other }
        ensures items { length self.new.items ≤ length self.old.items + 1 }
        ensures room { self.new.room ≡ self.old.room }
    {
        let spot = spot_of(self.counters.as_slice(), id);
        let counter = self.counters[spot.place];
        if counter.id != id {
            if limit == 0 {
                return false;
            }
            add(&mut self.counters, spot, id);
            return true;
        }
        if limit <= counter.passes {
            return false;
        }
        self.counters[spot.place] = Counter {
            passes: counter.passes + 1,
            ..counter
        };
        true
    }
}

/// Puts a counter for `id`, which was passed once, behind the one where its search ends.
fn add(counters: &mut Vec<Counter>, spot: Spot, id: u32)
    requires place { spot.place < length counters.old.items }
    requires room { length counters.old.items < vec_capacity counters.old }
    requires few { length counters.old.items < 2 ^ 32 }
    ensures items { (counter : Counter) → slice_get counters.old.items spot.place ≡ Some counter →
        counters.new.items ≡ with_counter counters.old.items spot counter id }
    ensures room { vec_capacity counters.old ≤ vec_capacity counters.new }
{
    let place = counters.len() as u32;
    counters[spot.place] = with_child(counters[spot.place], spot.bits, place);
    let counter = Counter {
        id,
        passes: 1,
        even: 0,
        odd: 0,
    };
    match counters.push(counter) {
        Ok(()) => {}
        Err(_) => unreachable!(),
    }
}
