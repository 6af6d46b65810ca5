ghost use Rattle.hk_draft.specs.Laws.{DraftsGoOn, RunsChain, TestedMayWrite, WritesSo, AcceptedEmits};

use xo_fields::one_header;

/// Drafts go on step by step, and a hook's run is a step of its account's chain.
pub fn extending()
    ensures steps { DraftsGoOn }
    ensures chain { RunsChain }
{}

/// The test that asks for a grant lets through only what is granted.
pub fn granting()
    ensures law { TestedMayWrite }
{}

/// A write of an overlay is a write of its draft.
pub fn writing()
    ensures law { WritesSo }
{}

/// What is accepted as an emission may wait in the queue.
pub fn emits()
    ensures law { AcceptedEmits }
{
    one_header();
}
