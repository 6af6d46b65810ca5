//! What an account has to keep for itself and for what it owns.
ghost use Rattle.std.specs.Prelude.{◌≡◌, ◌<◌, ◌^◌, Some};
ghost use Rattle.std.specs.FinMap as map;
ghost use Rattle.hk_state.specs.Reserves.{reserve, units_in, first_install, first_state, own_units, is_own};
ghost use Rattle.hk_state.specs.Sums.{sum};
ghost use Rattle.hk_state.specs.Writes.{with_writes};

use crate::{Entry, Key, Ledger, Overlay};
use hk_base::{AccountId, Hash256};

/// The drops that each account keeps.
const BASE_RESERVE: u64 = 10_000_000;

/// The drops that it keeps for each unit of what it owns.
const UNIT_RESERVE: u64 = 2_000_000;

/// The bytes of a State entry that are one unit, the last of them begun.
const UNIT_BYTES: usize = 256;

/// The reserve of an account in drops, on the ledger with the overlay's writes: for the account itself, and for each
/// unit of its Installs and State entries. It goes over that account's entries alone, and takes no memory.
pub fn reserve(ledger: &Ledger, overlay: &Overlay, account: &AccountId) -> u64
    requires fits { reserve (with_writes ledger.now.entries overlay.now) account.now < 2 ^ 64 }
    ensures reserve { result ≡ reserve (with_writes ledger.now.entries overlay.now) account.now }
{
    let installs = owned_units(ledger, overlay, &Key::Install(*account, 0));
    let least = Hash256([0; 32]);
    let states = owned_units(ledger, overlay, &Key::State(*account, least, least));
    BASE_RESERVE + UNIT_RESERVE * (installs + states)
}

// The units of the entries that stand beside a first key.
fn owned_units(ledger: &Ledger, overlay: &Overlay, first: &Key) -> u64
    requires fits { sum (own_units first.now) (with_writes ledger.now.entries overlay.now) < 2 ^ 64 }
    ensures units { result ≡ sum (own_units first.now) (with_writes ledger.now.entries overlay.now) }
{
    let mut units = 0;
    let mut next = overlay.least_from(ledger, first);
    while let Some((key, entry)) = next {
        if !is_own(first, key) {
            break;
        }
        units += units_in(entry);
        next = overlay.least_after(ledger, key);
    }
    units
}

/// Whether a key that isn't below the first one of an account's Installs, or of its State entries, is of that account
/// and kind.
pub fn is_own(first: &Key, key: &Key) -> bool
    ensures own { result ≡ is_own first.now key.now }
{
    if first.compare(key).is_gt() {
        return false;
    }
    match (first, key) {
        (Key::Install(owner, _), Key::Install(other, _)) => owner == other,
        (Key::State(owner, _, _), Key::State(other, _, _)) => owner == other,
        _ => false,
    }
}

fn units_in(entry: &Entry) -> u64
    ensures units { result ≡ units_in entry.now }
{
    match entry {
        Entry::Install { .. } => 1,
        Entry::State(bytes) => bytes.len().div_ceil(UNIT_BYTES) as u64,
        _ => 0,
    }
}
