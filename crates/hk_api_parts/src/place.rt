//! Where a hook runs, and the rows that ask for it.
ghost use Rattle.std.specs.Prelude.{◌≡◌};
ghost use Rattle.hk_calls.specs.Answers.{Gave};
ghost use Rattle.hk_calls.specs.Outputs.{settled};
ghost use Rattle.hk_api_parts.specs.Places as rows;

use hk_base::{AccountId, Hash256};
use hk_calls::{Code, Pair, inside, write_out};
use wa_num::Memory;

/// A hook's Install, and how it is run there.
#[derive(Clone, Copy, Debug, PartialEq, Eq)]
pub struct Place {
    pub account: AccountId,
    pub position: u8,
    /// The hash of the hook's code.
    pub hash: Hash256,
    pub namespace: Hash256,
    /// Whether it is called back.
    pub callback: bool,
    /// Whether its code has a callback.
    pub has_cbak: bool,
    /// The version of its code.
    pub version: u16,
}

/// Row 32: the hook's account.
pub fn hook_account(place: &Place, memory: &mut Memory, write: Pair) -> Result<i64, Code>
    ensures { Gave memory.old memory.new result
        (settled memory.old write (rows.hook_account place.now memory.old write)) }
{
    inside(memory, write)?;
    write_out(memory, write, &place.account.0)
}

/// Row 34: the hook's position.
pub fn hook_pos(place: &Place) -> Result<i64, Code>
    ensures { result ≡ rows.hook_pos place.now }
{
    Ok(i64::from(place.position))
}
