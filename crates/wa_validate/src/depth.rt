ghost use Rattle.std.specs.Prelude.{◌≡◌};
ghost use Rattle.wa_validate.specs.Depths.{deeper, surface};

use wa_ops::Items;

/// How deep a function's code goes: the greatest number of operands, of all open regions together, and of open regions.
#[derive(Clone, Copy, Debug, PartialEq, Eq)]
pub struct Depth {
    pub operands: u32,
    pub labels: u32,
}

impl Depth {
    /// Of no place.
    pub(crate) fn surface() -> Depth
        ensures surface { result ≡ surface }
    {
        Depth {
            operands: 0,
            labels: 0,
        }
    }

    /// The greater of both numbers.
    pub(crate) fn deeper(self, other: Depth) -> Depth
        ensures deeper { result ≡ deeper self other }
    {
        Depth {
            operands: self.operands.max(other.operands),
            labels: self.labels.max(other.labels),
        }
    }
}

/// A module whose functions are all well typed.
#[derive(Debug, Drop)]
pub struct Typed {
    /// The depths of each function that the module defines, in order.
    pub depths: Items<Depth>,
}
