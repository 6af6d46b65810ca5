ghost use Rattle.hk_bound.specs.Checks.{Held, IsHeld};
ghost use Rattle.hk_bound.specs.declared.fault.Export.{Export};
ghost use Rattle.wa_exec.specs.Runs.{CodeRunEnds, CodeRunIs, CodesRun, OneEnding, RunsWithin, named};

use wa_machine::within_the_bound;

/// The law that a run has one ending at most.
pub fn one_ending<S>()
    ensures law { OneEnding S }
{}

/// The law that each run of an export of a hook ends within its bound, over a host of any state.
pub fn runs_within<S>()
    ensures law { (held : Held) → IsHeld held → (which : Export) → RunsWithin S held.wasm (named which) }
{
    within_the_bound::<S>();
}

/// The law that each run of an export of accepted code is what the function `code_run` gives, over a host of any state.
pub fn code_run_is<S>()
    ensures law { CodeRunIs S }
{
    within_the_bound::<S>();
}

/// The law that what the function `code_run` gives is a run of the module that the bytes spell, over a host of any
/// state.
pub fn code_run_ends<S>()
    ensures law { CodeRunEnds S }
{}

/// The law that for accepted code the function `code_run` gives an ending within the export's bound, over a host of any
/// state.
pub fn codes_run<S>()
    ensures law { CodesRun S }
{
    within_the_bound::<S>();
}
