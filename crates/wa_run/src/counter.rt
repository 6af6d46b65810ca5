ghost use Rattle.std.specs.Prelude.{◌≡◌, ◌==◌, ◌%◌, ◌/◌, ◌<◌, ◌≤◌, ◌^◌, length, if◌then◌else◌};
ghost use Rattle.wa_run.specs.Guards.{IsSpot, IsTree, child, with_child};

/// How often a run passed the guard with this id, and where other ids stand.
///
/// The counters are a digital search tree: from the first one on, an id that isn't the counter's own goes on by its
/// next bit, the lowest first. So a search meets at most 33 counters, whatever the ids are.
#[derive(Clone, Copy, Debug, PartialEq, Eq)]
pub(crate) struct Counter {
    pub(crate) id: u32,
    pub(crate) passes: u32,
    /// Where ids go on whose next bit is 0; 0 where there is none.
    pub(crate) even: u32,
    /// Where ids go on whose next bit is 1; 0 where there is none.
    pub(crate) odd: u32,
}

/// Where the search for an id ends, and the bits of the id that it had left there.
#[derive(Clone, Copy, Debug, PartialEq, Eq)]
pub(crate) struct Spot {
    pub(crate) place: usize,
    pub(crate) bits: u32,
}

/// Where an id with these bits left goes on; 0 where there is no such counter.
#[inline(always)]
fn child(counter: Counter, bits: u32) -> u32
    ensures child { result ≡ child counter bits }
{
    if bits % 2 == 0 {
        counter.even
    } else {
        counter.odd
    }
}

/// The counter with this place for ids with these bits left.
pub(crate) fn with_child(counter: Counter, bits: u32, place: u32) -> Counter
    ensures counter { result ≡ with_child counter bits place }
{
    if bits % 2 == 0 {
        Counter {
            even: place,
            ..counter
        }
    } else {
        Counter {
            odd: place,
            ..counter
        }
    }
}

/// The counter of this id, or the one behind which it would stand.
pub(crate) fn spot_of(counters: &[Counter], id: u32) -> Spot
    requires tree { IsTree counters.now }
    ensures spot { IsSpot counters.now id result }
{
    let mut place = 0;
    let mut bits = id;
    loop {
        let counter = counters[place];
        let next = child(counter, bits);
        if counter.id == id || next == 0 {
            return Spot { place, bits };
        }
        place = next as usize;
        bits /= 2;
    }
}
