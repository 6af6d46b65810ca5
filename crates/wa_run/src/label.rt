ghost use Rattle.std.specs.Prelude.{◌≡◌};
ghost use Rattle.wa_run.specs.Flat.{has_result};

use wa_ops::ValueType;

/// Where a branch to a label goes on.
#[derive(Clone, Copy, Debug, PartialEq, Eq)]
pub(crate) enum Place {
    /// The function returns.
    Body,
    /// Behind the region's `end`.
    Inner,
    /// At the first instruction of the loop's body.
    Loop(usize),
}

/// An open region of flat code.
#[derive(Clone, Copy, Debug, PartialEq, Eq)]
pub(crate) struct Label {
    pub(crate) place: Place,
    /// The place of the region's `end`.
    pub(crate) last: u32,
    /// How many words the regions around have.
    pub(crate) height: usize,
    /// Whether the region has a result.
    pub(crate) carries: bool,
}

/// The label of a function's body.
pub(crate) const BODY: Label = Label {
    place: Place::Body,
    last: 0,
    height: 0,
    carries: true,
};

/// Whether a region with this result has one.
#[inline(always)]
pub(crate) fn carries(kind: Option<ValueType>) -> bool
    ensures carries { result ≡ has_result kind }
{
    match kind {
        Some(_) => true,
        None => false,
    }
}
