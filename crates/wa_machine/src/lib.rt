//! The machine that runs hooks, as a definition, and the laws that no run of it passes the bound and that a run is a
//! function.
#![tactic(auto)]

ghost use Rattle.wa_machine.specs.Law.{WithinBound};
ghost use Rattle.wa_machine.specs.Runs.{RunEnds, RunIs};

/// The law that each run of typed and guarded code ends within its bound, without a fault, over a host of any state.
pub fn within_the_bound<S>()
    ensures law { WithinBound S }
{}

/// The law that a run which ends within its bound is what the function of runs gives, over a host of any state.
pub fn run_is<S>()
    ensures law { RunIs S }
{}

/// The law that what the function of runs gives is a run, which ends within its bound, over a host of any state.
pub fn run_ends<S>()
    ensures law { RunEnds S }
{}
