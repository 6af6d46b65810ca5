//! Entries of the ledger by their indexes, and how many an account owns.
ghost use Rattle.std.specs.Prelude.{◌≡◌, ◌+◌, ◌-◌, ◌^◌, min, length};
ghost use Rattle.std.specs.Option.{option_map};
ghost use Rattle.std.specs.Map.Iter.{deref_pair};
ghost use Rattle.hk_state.specs.Reserves.{is_own};
ghost use Rattle.hk_state.specs.Writes.{with_writes};
ghost use Rattle.hk_api.specs.Keylets as rows;

use hk_base::{AccountId, Hash256, account_index, state_index};
use hk_state::{Entry, Key, Ledger, Overlay, is_own};

/// The two bytes before an account's index.
const ACCOUNT_SPACE: [u8; 2] = [0x00, 0x61];

/// The two bytes before a State entry's index.
const STATE_SPACE: [u8; 2] = [0x00, 0x76];

/// Whether bytes begin as a keylet does.
pub(crate) fn is_keylet(bytes: &[u8]) -> bool
    ensures { result ≡ rows.is_keylet bytes.now }
{
    bytes.starts_with(&ACCOUNT_SPACE) || bytes.starts_with(&STATE_SPACE)
}

/// The first key of a keylet's kind: that of accounts, or else of State entries.
pub(crate) fn first_key(keylet: &[u8]) -> Key
    ensures { result ≡ rows.first_key keylet.now }
{
    let least = Hash256([0; 32]);
    if keylet.starts_with(&ACCOUNT_SPACE) {
        Key::Account(AccountId([0; 20]))
    } else {
        Key::State(AccountId([0; 20]), least, least)
    }
}

/// Whether a key is of the kind of a first one.
fn is_of(first: &Key, key: &Key) -> bool
    ensures { result ≡ rows.is_of first.now key.now }
{
    if first.compare(key).is_gt() {
        return false;
    }
    match (first, key) {
        (Key::Account(_), Key::Account(_)) => true,
        (Key::State(_, _, _), Key::State(_, _, _)) => true,
        _ => false,
    }
}

fn has_index(index: &[u8], key: &Key) -> bool
    ensures { result ≡ rows.has_index index.now key.now }
{
    match key {
        Key::Account(id) => account_index(id).0.as_slice() == index,
        Key::State(id, namespace, key) => state_index(id, key, namespace).0.as_slice() == index,
        _ => false,
    }
}

/// The first entry of a first key's kind that has an index. It goes over the entries of that kind, and takes no memory.
#[tactic(auto, unfolding(crate::specs::Keylets::entry_at))]
pub(crate) fn entry_at<'a>(
    ledger: &'a Ledger,
    overlay: &'a Overlay,
    first: &Key,
    index: &[u8],
) -> Option<(&'a Key, &'a Entry)>
    ensures { option_map deref_pair result ≡
        rows.entry_at (with_writes ledger.now.entries overlay.now) first.now index.now }
{
    let mut next = overlay.least_from(ledger, first);
    while let Some((key, entry)) = next {
        if !is_of(first, key) {
            return None;
        }
        if has_index(index, key) {
            return Some((key, entry));
        }
        next = overlay.least_after(ledger, key);
    }
    None
}

/// A count, and one more for each entry of the account and the kind of a first key.
fn counted(ledger: &Ledger, overlay: &Overlay, first: &Key, before: u32) -> u32
    ensures { result ≡
        min (before + length (rows.listed (is_own first.now) (with_writes ledger.now.entries overlay.now)))
        (2 ^ 32 - 1) }
{
    let mut count = before;
    let mut next = overlay.least_from(ledger, first);
    while let Some((key, _)) = next {
        if !is_own(first, key) {
            break;
        }
        count = count.saturating_add(1);
        next = overlay.least_after(ledger, key);
    }
    count
}

/// How many Installs and State entries an account has. It goes over that account's entries alone, and takes no memory.
#[tactic(auto, unfolding(crate::specs::Keylets::owner_count))]
pub(crate) fn owner_count(ledger: &Ledger, overlay: &Overlay, id: &AccountId) -> u32
    ensures { result ≡ rows.owner_count (with_writes ledger.now.entries overlay.now) id.now }
{
    let installs = counted(ledger, overlay, &Key::Install(*id, 0), 0);
    let least = Hash256([0; 32]);
    counted(ledger, overlay, &Key::State(*id, least, least), installs)
}
