ghost use Rattle.hk_replay.specs.Answers.{OneAnswer, PrintedCounts, SomeAnswer};
ghost use Rattle.hk_replay.specs.HookLines.{HookFolds};
ghost use Rattle.hk_replay.specs.ReplayLines.{ReplayFolds};
ghost use Rattle.hk_replay.specs.Verdicts.{EachVerdict, HeldVerdict};

use hk_chain::HookHost;
use wa_exec::{one_ending, runs_within};

/// The law that words and an input have one text and one status.
pub fn one_answer()
    ensures law { OneAnswer }
{
    one_ending::<HookHost>();
}

/// The law that words and an input have some text and some status.
pub fn some_answer()
    ensures law { SomeAnswer }
{
    runs_within::<HookHost>();
}

/// The law that each code has its verdict: all that is kept of it where it is accepted, or why it is refused.
pub fn held_verdict()
    ensures law { HeldVerdict }
{}

/// The law that no code is neither accepted nor refused.
pub fn each_verdict()
    ensures law { EachVerdict }
{}

/// The count that `run` prints is at most the bound that it prints.
pub fn printed_counts()
    ensures law { PrintedCounts }
{
    one_ending::<HookHost>();
    runs_within::<HookHost>();
}

/// A replay is the lines of its input, with the ledger machine folded over them.
pub fn replay_folds()
    ensures law { ReplayFolds }
{}

/// What the lines with one hook give is these lines, with a machine folded over them that keeps the code; they lead
/// to the last.
pub fn hook_folds()
    ensures law { HookFolds }
{}
