ghost use Rattle.hk_bound.specs.Acceptance.{AcceptedIsHook, SomeVerdict};
ghost use Rattle.hk_bound.specs.Laws.{EntryTypes, GuardedLoops, OneRefusal, OneVerdict, Typables};

/// The law that each loop of a module that meets the rules begins with its guard.
pub fn guarded_loops()
    ensures law { GuardedLoops }
{}

/// The law that `hook` and `cbak` of a module that meets the rules are defined functions from i32 to i64.
pub fn entry_types()
    ensures law { EntryTypes }
{}

/// The law that no accepted code is refused.
pub fn one_verdict()
    ensures law { OneVerdict }
{}

/// The law that a refused code is refused in one way.
pub fn one_refusal()
    ensures law { OneRefusal }
{}

/// The law that each code is accepted or refused, and refused for a cause of its own: want of memory is no verdict on a
/// code.
pub fn some_verdict()
    ensures law { SomeVerdict }
{}

/// The law that the function `accepted` finds a module exactly of the code that is accepted.
pub fn accepted_is_hook()
    ensures law { AcceptedIsHook }
{}

/// The law that a decoded module which meets the rules has all that `validate` needs.
pub fn typables()
    ensures law { Typables }
{}
