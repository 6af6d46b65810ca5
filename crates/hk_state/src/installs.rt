//! The hooks of an account in the order of their positions, without a look-up for each position.
ghost use Rattle.std.specs.Prelude.{◌≡◌, ◌+◌, ◌<◌};
ghost use Rattle.std.specs.FinMap as map;
ghost use Rattle.std.specs.Option.{option_copied};
ghost use Rattle.hk_state.specs.declared.key.Key.TheVariants.{Install};
ghost use Rattle.hk_state.specs.Installs.{IsNext};

use crate::reserves::is_own;
use crate::{Entry, Key, Ledger};
use hk_base::AccountId;

/// The first position from this one on at which an account has a hook. None where it has none there. It takes no
/// memory.
pub fn next_install(ledger: &Ledger, account: &AccountId, from: u8) -> Option<u8>
    ensures next { IsNext ledger.now.entries account.now from result }
{
    let first = Key::Install(*account, from);
    let (key, _) = ledger.least_from(&first)?;
    if !is_own(&first, key) {
        return None;
    }
    match key {
        Key::Install(_, position) => Some(*position),
        _ => None,
    }
}

/// The Install of an account at a position, where the next one is known; then the next one behind that position is. It
/// looks nothing up where there is none, and takes no memory.
pub fn install_at<'a>(
    ledger: &'a Ledger,
    account: &AccountId,
    position: u8,
    next: &mut Option<u8>,
) -> Option<&'a Entry>
    requires position { position < 255 }
    requires next { IsNext ledger.now.entries account.now position next.old }
    ensures next { IsNext ledger.now.entries account.now (position + 1) next.new }
    ensures entry { option_copied result ≡ map.get ledger.now.entries (Install account.now position) }
{
    if *next != Some(position) {
        return None;
    }
    *next = next_install(ledger, account, position + 1);
    ledger.get(&Key::Install(*account, position))
}
