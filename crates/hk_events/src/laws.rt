ghost use Rattle.hk_events.specs.Laws.{AppliedHolds, SettledHolds, DueFalls, SettlesWhileDue};
ghost use Rattle.hk_events.specs.Laws.{StaysComplete, StaysWithin, ReserveRests, NamespacesEmptied};
ghost use Rattle.hk_events.specs.Laws.{FindsDue, FindsNone, OverlaysSo};
ghost use Rattle.hk_events.specs.Complete.{TransactionsFit};
ghost use Rattle.hk_events.specs.Overlays.{CommitsSo};

/// A transaction changes State entries only as it may, changes all that it prints and nothing else, and keeps the queue
/// good and the sum of all drops.
pub fn applied_events()
    ensures law { AppliedHolds }
{}

/// So does the settlement of a queued emission, with its callback.
pub fn settled_events()
    ensures law { SettledHolds }
{}

/// The settlement of the least due emission leaves the others due, and none more.
pub fn due_falls()
    ensures law { DueFalls }
{}

/// To settle the next emission while there is one is to settle those that were due at first.
pub fn settles_while_due()
    ensures law { SettlesWhileDue }
{}

/// Each event keeps what a ledger has of hooks complete: accepted Definitions, Installs of them, and State entries of
/// accounts.
pub fn stays_complete()
    ensures law { StaysComplete }
{}

/// Each event keeps reserves within the sum of drops, and the next number within its limit.
pub fn stays_within()
    ensures law { StaysWithin }
{}

/// The reserve of an account rests on its Installs and State entries alone.
pub fn reserve_rests()
    ensures law { ReserveRests }
{}

/// A namespace that an item deletes has no State entry left.
pub fn namespaces_emptied()
    ensures law { NamespacesEmptied }
{}

/// The least due number is found by look-ups of the queue's keys.
pub fn finds_due()
    ensures law { FindsDue }
    ensures none { FindsNone }
{}

/// An overlay's writes are those of its draft, and a commit of them with the queued emissions is what enters the
/// ledger.
pub fn committing()
    ensures overlays { OverlaysSo }
    ensures commits { CommitsSo }
{}

/// A transaction that fields are has items within the limits of Installs.
pub fn transactions_fit()
    ensures law { TransactionsFit }
{}
