//! The outside: where input comes from and where output goes to.
ghost use Rattle.std.specs.Prelude.{◌≡◌, ◌<◌, ◌≤◌, List, ℕ, length, take, IfOk, IsErrOf, OnErr};
ghost use Rattle.std.specs.Io.KnownBytes.{Appends, Consumes, IsAtEnd, Keeps};
ghost use Rattle.std.specs.declared.option.Option.{Option};
ghost use Rattle.hk_base.specs.Outside.{Rose, last_count};
ghost use Rattle.hk_base.specs.declared.outside.SinkStop.TheVariants.{NoMemory};

use std::alloc::AllocError;

/// A call of a source failed.
#[derive(Clone, Copy, Debug, PartialEq, Eq)]
pub struct Failed;

/// Why a sink took nothing.
#[derive(Clone, Copy, Debug, PartialEq, Eq)]
pub enum SinkStop {
    Failed,
    NoMemory,
}

impl From<AllocError> for SinkStop {
    ghost from_gives = { λ _ stop. stop ≡ NoMemory };

    fn from(_: AllocError) -> SinkStop {
        SinkStop::NoMemory
    }
}

/// Where input comes from.
///
/// Its meanings are the bytes that are left, where it tells them, and a count of its faults, which never falls and is
/// at most
/// 18,446,744,073,709,551,615, where it stops.
pub trait Source {
    /// The bytes not yet read, where the source tells them.
    ghost left: { Self → Option (List ℕ) };

    /// How often the source has failed.
    ghost faults: { Self → ℕ };

    /// Reads bytes into the front of the piece and answers how many; 0 is the end of input.
    fn read(&mut self, into: &mut [u8]) -> Result<usize, Failed>
        requires room { 0 < length into.old }
        ensures within { IfOk result (λ count. count ≤ length into.new) }
        ensures moved { IfOk result (λ count. Consumes (left self.old) (left self.new) (take count into.new)) }
        ensures end { IfOk result (λ count. count ≡ 0 → IsAtEnd (left self.new)) }
        ensures kept { OnErr result (Keeps (left self.old) (left self.new)) }
        ensures never_falls { faults self.old ≤ faults self.new }
        ensures failed { OnErr result (Rose (faults self.old) (faults self.new)) };

    /// No count of faults passes the last value, at which one may stand.
    ghost at_most_last: { (source : Self) → faults source ≤ last_count };
}

/// Where output goes to.
///
/// Its meanings are the bytes that were written, where it tells them, and a count of its faults, which never falls and
/// is at most 18,446,744,073,709,551,615, where it stops.
pub trait Sink {
    /// The bytes written so far, where the sink tells them.
    ghost written: { Self → Option (List ℕ) };

    /// How often the sink has failed.
    ghost faults: { Self → ℕ };

    /// Writes bytes from the front of the piece and answers how many, at least 1.
    fn write(&mut self, piece: &[u8]) -> Result<usize, SinkStop>
        requires some { 0 < length piece.now }
        ensures within { IfOk result (λ count. (1 ≤ count) × (count ≤ length piece.now)) }
        ensures moved { IfOk result (λ count. Appends (written self.old) (written self.new) (take count piece.now)) }
        ensures kept { OnErr result (Keeps (written self.old) (written self.new)) }
        ensures never_falls { faults self.old ≤ faults self.new }
        ensures failed { IsErrOf result SinkStop.Failed → Rose (faults self.old) (faults self.new) };

    /// No count of faults passes the last value, at which one may stand.
    ghost at_most_last: { (sink : Self) → faults sink ≤ last_count };
}
