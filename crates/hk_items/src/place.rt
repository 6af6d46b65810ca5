//! Where an item acts, and how an overlay is asked and changed there.
ghost use Rattle.std.specs.Prelude.{◌≡◌, IfOk, is_some};
ghost use Rattle.std.specs.FinMap as map;
ghost use Rattle.hk_state.specs.declared.entry.Entry.TheVariants as entry;
ghost use Rattle.hk_state.specs.declared.key.Key.TheVariants as key;
ghost use Rattle.hk_state.specs.Entries.{Entries};
ghost use Rattle.hk_state.specs.Writes.{with_writes};
ghost use Rattle.hk_events.specs.Items.{put_entry, cut_entry};
ghost use Rattle.hk_items.specs.Endings.{Becomes};

use hk_base::{AccountId, Hash256, NoMemory};
use hk_state::{Entry, Key, Ledger, Overlay};

/// A position of an account, where a hook may be installed.
#[derive(Clone, Copy)]
pub struct Place {
    pub owner: AccountId,
    pub position: u8,
}

impl Place {
    /// The key of the hook that is installed there.
    pub fn key(self) -> Key
        ensures key { result ≡ key.Install self.owner self.position }
    {
        Key::Install(self.owner, self.position)
    }
}

/// Whether the ledger with the overlay's writes has an entry at a key.
pub fn has(ledger: &Ledger, overlay: &Overlay, key: &Key) -> bool
    ensures has { result ≡ is_some (map.get (with_writes ledger.now.entries overlay.now) key.now) }
{
    overlay.get(ledger, key).is_some()
}

/// Puts the hook that is installed at a place.
pub fn put_hook(overlay: Overlay, place: Place, entry: Entry) -> Result<Overlay, NoMemory>
    ensures put { IfOk result (λ after. (m : Entries) → Becomes m overlay after
        (put_entry (key.Install place.owner place.position) entry)) }
{
    let mut after = overlay;
    after.put(place.key(), entry)?;
    Ok(after)
}

/// Removes the hook that is installed at a place, if there is one.
pub fn cut_hook(overlay: Overlay, place: Place) -> Result<Overlay, NoMemory>
    ensures cut { IfOk result (λ after. (m : Entries) → Becomes m overlay after
        (cut_entry (key.Install place.owner place.position))) }
{
    let mut after = overlay;
    after.remove(place.key())?;
    Ok(after)
}
