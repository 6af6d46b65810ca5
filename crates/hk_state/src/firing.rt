//! On which types of transactions a hook fires.
ghost use Rattle.std.specs.Prelude.{◌≡◌, ◌≤◌};
ghost use Rattle.hk_state.specs.Firing.{fires, is_set};

use hk_base::Hash256;

/// The type that changes hooks.
const SET_HOOK: u16 = 22;

/// Whether a hook with this mask fires on a type of transactions. It takes no memory.
///
/// The mask's bits are about types from 0 to 255, the least significant about type 0. A hook fires where the bit is 0,
/// but on type 22, SetHook, where it is 1.
pub fn fires(on: &Hash256, kind: u16) -> bool
    ensures fires { result ≡ fires on.now kind }
{
    if kind > 255 {
        return false;
    }
    if kind == SET_HOOK {
        is_set(on, kind)
    } else {
        !is_set(on, kind)
    }
}

fn is_set(mask: &Hash256, kind: u16) -> bool
    requires range { kind ≤ 255 }
    ensures set { result ≡ is_set mask.now kind }
{
    let byte = mask.0[31 - usize::from(kind / 8)];
    (byte >> (kind % 8)) % 2 == 1
}
