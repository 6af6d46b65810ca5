ghost use Rattle.std.specs.Prelude.{◌≡◌, ◌<◌};
ghost use Rattle.hk_calls.specs.Arguments.{narrow_at, wide_at, exponent_at, pair_of};

/// A pointer and a length, as calls name a part of the memory.
#[derive(Clone, Copy, Debug, PartialEq, Eq)]
pub struct Pair {
    pub at: u32,
    pub count: u32,
}

/// An argument of 32 bits, as an unsigned number.
pub fn narrow(arguments: &[u64], place: usize) -> u32
    ensures { result ≡ narrow_at arguments.now place }
{
    match arguments.get(place) {
        Some(argument) => (*argument % (1 << 32)) as u32,
        None => 0,
    }
}

/// An argument of 64 bits, as a signed number.
pub fn wide(arguments: &[u64], place: usize) -> i64
    ensures { result ≡ wide_at arguments.now place }
{
    match arguments.get(place) {
        Some(argument) => argument.cast_signed(),
        None => 0,
    }
}

/// An argument of 32 bits, as a signed number.
pub fn exponent(arguments: &[u64], place: usize) -> i32
    ensures { result ≡ exponent_at arguments.now place }
{
    narrow(arguments, place).cast_signed()
}

/// The pointer and the length that stand side by side, from a place on.
pub fn pair_at(arguments: &[u64], place: usize) -> Pair
    requires { place < 16 }
    ensures { result ≡ pair_of arguments.now place }
{
    Pair {
        at: narrow(arguments, place),
        count: narrow(arguments, place + 1),
    }
}
