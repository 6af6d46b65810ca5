//! Laws of the definitions.
ghost use Rattle.hk_chain.specs.Laws.{CallbacksBounded, CallbacksFit, CallbacksRun, CallbacksShow, CallsKeepLength};
ghost use Rattle.hk_chain.specs.Laws.{ChainsBounded, ChainsFit, ChainsShow, HooksRun};

use hk_api::{Api, calls_lead};
use wa_exec::codes_run;

/// A call of a hook keeps the memory's length.
pub fn calls_keep_length()
    ensures law { CallsKeepLength }
{}

/// A chain that is kept goes on from its draft by what the hooks that accepted may write and emit, and one that is
/// rejected leaves lines alone. The lines are of hooks of the account.
pub fn chains_fit()
    ensures law { ChainsFit }
    ensures lines { ChainsShow }
{
    calls_lead();
}

/// A callback that is kept goes on from its draft by what its hook may write and emit, and one that is rejected leaves
/// its line alone. The line is of a hook of the account.
pub fn callbacks_fit()
    ensures law { CallbacksFit }
    ensures lines { CallbacksShow }
{
    calls_lead();
}

/// Where each Definition stores its bounds, the bound on each line is that of its hook, and the count there is within
/// it.
pub fn lines_bounded()
    ensures chain { ChainsBounded }
    ensures callback { CallbacksBounded }
{
    codes_run::<Api<'_>>();
}

/// Where each Definition stores its bounds, a hook that fires and isn't skipped runs to an end.
pub fn hooks_run()
    ensures law { HooksRun }
{
    codes_run::<Api<'_>>();
}

/// Where each Definition stores its bounds, a callback that the code has runs to an end.
pub fn callbacks_run()
    ensures law { CallbacksRun }
{
    codes_run::<Api<'_>>();
}
