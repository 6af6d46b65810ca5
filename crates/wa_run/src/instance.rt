//! A run of one function of a hook.
ghost use Rattle.std.specs.Prelude.{◌<◌, ◌≡◌, ◌≤◌, IfOk, IsErr, IsTrue, OnOk};
ghost use Rattle.wa_machine.specs.Law.{EndsWithin};
ghost use Rattle.wa_ops.specs.Bound.{bound_at};
ghost use Rattle.wa_ops.specs.Soundness.{Each};
ghost use Rattle.wa_machine.specs.Starts.{first_memory, meaning_of};
ghost use Rattle.wa_run.specs.Starts.{CanRun, EndsSo, Function, HasWidth, first_globals, first_locals, first_of};
ghost use Rattle.wa_run.specs.Starts.{world_of};

use crate::ended::{Ended, outcome};
use crate::first_values::{first_globals, first_locals, first_memory};
use crate::guards::Guards;
use crate::label::BODY;
use crate::labels::Labels;
use crate::running::Running;
use crate::store::Store;
use crate::words::Words;
use std::alloc::Global;
use std::marker::Model;
use wa_machine::within_the_bound;
use wa_num::Host;
use wa_ops::{CallNo, ModuleGlobal, NoMemory, Op, Segment};
use wa_validate::Depth;

/// A run that hasn't begun, with all the memory that it takes.
#[derive(Debug, Drop)]
pub struct Instance {
    running: Running,
    /// Room for the text of the outcome.
    text: Vec<u8>,
}

impl Model for Instance {
    ghost use Rattle.std.specs.Prelude.{◌≡◌, ◌≤◌, [], vec_capacity};
    ghost use Rattle.wa_run.specs.Starts.{IsFresh, Ready};

    ghost Value = { Ready };

    ghost view = { λ i. record {
      locals = i.running.store.locals.items;
      globals = i.running.store.globals.items;
      memory = i.running.store.memory;
      words_room = i.running.store.words.room;
      labels_room = i.running.labels.room;
      guards_room = i.running.guards.room;
    } };

    ghost invariant = { λ i. IsFresh i.running × (i.text.items ≡ []) × (256 ≤ vec_capacity i.text) };
}

impl Instance {
    /// Takes all memory of a run of a function with this argument and so many other locals, over the globals of its
    /// module and a memory of so many pages with its data: for code of this depth, in which guards are passed `bound`
    /// times at most.
    pub fn new(
        alloc: Global,
        argument: u32,
        locals: u32,
        globals: &[ModuleGlobal],
        pages: u32,
        segments: &[Segment],
        depth: Depth,
        bound: u32,
    ) -> Result<Instance, NoMemory>
        requires pages { pages ≤ 16 }
        ensures locals { IfOk result (λ instance. instance.locals ≡ first_locals argument locals) }
        ensures globals { IfOk result (λ instance. instance.globals ≡ first_globals globals.now) }
        ensures width { OnOk result (Each (λ global. HasWidth global.init) globals.now) }
        ensures memory { IfOk result (λ instance. instance.memory ≡ first_memory pages segments.now) }
        ensures words_room { IfOk result (λ instance. depth.operands < instance.words_room) }
        ensures labels_room { IfOk result (λ instance. depth.labels < instance.labels_room) }
        ensures guards_room { IfOk result (λ instance. bound < instance.guards_room) }
    {
        let store = Store {
            words: Words::with_room(alloc, depth.operands as usize + 1)?,
            locals: first_locals(alloc, argument, locals)?,
            globals: first_globals(alloc, globals)?,
            memory: first_memory(alloc, pages, segments)?,
        };
        let mut labels = Labels::with_room(alloc, depth.labels as usize + 1)?;
        labels.open(BODY);
        let guards = Guards::with_room(alloc, bound)?;
        Ok(Instance {
            running: Running {
                at: 0,
                labels,
                guards,
                store,
            },
            text: Vec::with_capacity(alloc, 256)?,
        })
    }

    /// Runs the function to its end. It takes no memory of its own.
    ///
    /// # Errors
    ///
    /// `NoMemory`, only from a host whose calls can want memory.
    pub fn run<H: Host>(
        self,
        ops: &[Op],
        ends: &[u32],
        calls: &[CallNo],
        host: &mut H,
    ) -> Result<Ended, NoMemory>
        requires can { (f : Function) × CanRun f ops.now ends.now calls.now self }
        ensures ends { IfOk result (λ ended. (f : Function) → CanRun f ops.now ends.now calls.now self →
            EndsSo (meaning_of H.answer H.memory_after H.state_after) f self host.old ended.count ended.outcome
            host.new) }
        ensures within { (f : Function) → CanRun f ops.now ends.now calls.now self →
            EndsWithin (world_of (meaning_of H.answer H.memory_after H.state_after) f) (bound_at 1 f.code)
            (first_of (meaning_of H.answer H.memory_after H.state_after) f self host.old) }
        ensures told { H.may_want host.new ≡ H.may_want host.old }
        ensures wants { IsErr result → IsTrue (H.may_want host.old) }
    {
        within_the_bound::<H>();
        let Instance { mut running, text } = self;
        let stopped = running.run(ops, ends, calls, host)?;
        Ok(Ended {
            outcome: outcome(stopped.stop, &running.store.memory, text),
            count: stopped.count,
        })
    }
}
