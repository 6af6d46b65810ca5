//! A run of an export of a hook that was checked.
ghost use Rattle.hk_bound.specs.Bounds.{export_bound};
ghost use Rattle.hk_bound.specs.declared.fault.Export.{Export};
ghost use Rattle.std.specs.Prelude.{ℕ, ◌≡◌, ◌≤◌, IfOk, IsErr, IsTrue, Some};
ghost use Rattle.wa_exec.specs.Made.{IsMade, is_there};
ghost use Rattle.wa_exec.specs.Runs.{RunsWithin, named};
ghost use Rattle.wa_machine.specs.Runs.{IsRun};
ghost use Rattle.wa_machine.specs.Starts.{meaning_of};

use crate::laws::runs_within;
use crate::starting::{bound_of, entry_of, pages_of};
use hk_bound::{Checked, Export};
use std::alloc::Global;
use std::marker::Model;
use wa_num::Host;
use wa_ops::NoMemory;
use wa_run::{Ended, Instance as Run};

/// A run that hasn't begun, with all the memory that it takes.
#[derive(Debug, Drop)]
pub struct Instance {
    which: Export,
    run: Run,
}

impl Model for Instance {
    ghost use Rattle.wa_exec.specs.Made.{Made};

    ghost Value = { Made };

    ghost view = { λ i. record { which = i.which; ready = i.run } };
}

impl Instance {
    /// Takes all memory of a run of this export with this argument.
    ///
    /// # Errors
    ///
    /// `NoMemory` where memory ran out.
    pub fn new(
        alloc: Global,
        checked: &Checked,
        which: Export,
        argument: u32,
    ) -> Result<Instance, NoMemory>
        requires there { IsTrue (is_there which checked.now) }
        ensures made { IfOk result (IsMade checked.now which argument) }
    {
        let module = checked.module();
        let bound = bound_of(checked, which);
        let entry = entry_of(checked, which);
        let run = Run::new(
            alloc,
            argument,
            entry.locals,
            module.globals.as_slice(),
            pages_of(module.memories.as_slice()),
            module.segments.as_slice(),
            entry.depth,
            bound as u32,
        )?;
        Ok(Instance { which, run })
    }

    /// Runs the function to its end. It takes no memory of its own.
    ///
    /// # Errors
    ///
    /// `NoMemory`, only from a host whose calls can want memory.
    pub fn run<H: Host>(self, checked: &Checked, host: &mut H) -> Result<Ended, NoMemory>
        requires made { (which : Export) × (argument : ℕ) × IsMade checked.now which argument self }
        ensures ends { IfOk result (λ ended. (which : Export) (argument : ℕ) → IsMade checked.now which argument self →
            IsRun (meaning_of H.answer H.memory_after H.state_after) checked.now.wasm (named which) argument host.old
            ended.outcome ended.count host.new) }
        ensures count { IfOk result
            (λ ended. (which : Export) (argument n : ℕ) → IsMade checked.now which argument self →
            export_bound checked.now.version (named which) checked.now.wasm ≡ Some n → ended.count ≤ n) }
        ensures within { (which : Export) → RunsWithin H checked.now.wasm (named which) }
        ensures told { H.may_want host.new ≡ H.may_want host.old }
        ensures wants { IsErr result → IsTrue (H.may_want host.old) }
    {
        runs_within::<H>();
        let Instance { which, run } = self;
        let entry = entry_of(checked, which);
        let code = &checked.module().codes.as_slice()[entry.function as usize];
        let calls = checked.guards().imports.as_slice();
        run.run(code.ops.as_slice(), entry.ends.as_slice(), calls, host)
    }
}
