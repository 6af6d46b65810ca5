//! Items that install new code: its check, and the Definition that is kept of it.
ghost use Rattle.std.specs.Prelude.{◌≡◌, ◌≤◌, IfOk};
ghost use Rattle.std.specs.Option.{option_map};
ghost use Rattle.xo_object.specs.declared.transaction.HookItem.TheVariants as item;
ghost use Rattle.hk_state.specs.declared.entry.Entry.TheVariants as entry;
ghost use Rattle.hk_state.specs.declared.key.Key.TheVariants as key;
ghost use Rattle.hk_events.specs.Items.{defined, item_end, put_entry};
ghost use Rattle.hk_items.specs.Checks.{checked, checked_in};
ghost use Rattle.hk_items.specs.Endings.{Performs, Becomes, plain};

use crate::installing::{Terms, install_of, is_occupied};
use crate::place::{Place, has, put_hook};
use hk_base::{Hash256, Items, NoMemory};
use hk_bound::{CheckFault, check_at};
use hk_lines::ResultName;
use hk_state::{Done, Entry, Key, Ledger, Overlay};
use std::alloc::{AllocError, Global};

/// Installs new code, which is checked once.
pub fn create(
    alloc: Global,
    ledger: &Ledger,
    overlay: Overlay,
    place: Place,
    code: &Items<u8>,
    version: u16,
    terms: Terms,
) -> Result<Done, NoMemory>
    requires known { version ≤ 1 }
    ensures end { IfOk result (λ done. Performs ledger.now.entries overlay done
        (item_end plain place.owner place.position (item.Create code.now version terms.entry.on terms.entry.namespace
        terms.entry.parameters.now terms.entry.grants.now terms.entry.replace))) }
{
    if is_occupied(ledger, &overlay, place, terms.replace) {
        return Ok(Done::Failed(ResultName::Occupied));
    }
    match found_in(alloc, code.as_slice(), version)? {
        None => Ok(Done::Failed(ResultName::HookRefused)),
        Some(found) => {
            let after = put_checked(ledger, overlay, place, code, version, found, terms)?;
            Ok(Done::Kept(after))
        }
    }
}

// Installs new code that was accepted.
fn put_checked(
    ledger: &Ledger,
    overlay: Overlay,
    place: Place,
    code: &Items<u8>,
    version: u16,
    found: Found,
    terms: Terms,
) -> Result<Overlay, NoMemory>
    ensures put { IfOk result (λ after. Becomes ledger.now.entries overlay after (λ d.
        put_entry (key.Install place.owner place.position) (entry.Install found.hash terms.entry.on
        terms.entry.namespace terms.entry.parameters.now terms.entry.grants.now)
        (defined version code.now (checked found.hash found.bound_hook found.bound_cbak) d))) }
{
    let defined = define(ledger, overlay, code, version, found)?;
    let install = install_of(found.hash, terms)?;
    let after = put_hook(defined, place, install)?;
    Ok(after)
}

// What the check of a code finds.
#[derive(Clone, Copy)]
struct Found {
    hash: Hash256,
    bound_hook: u64,
    bound_cbak: Option<u64>,
}

// Checks new code, in its version. None exactly where it is refused.
fn found_in(alloc: Global, code: &[u8], version: u16) -> Result<Option<Found>, NoMemory>
    requires known { version ≤ 1 }
    ensures found { IfOk result (λ found. option_map (λ f. checked f.hash f.bound_hook f.bound_cbak) found ≡
        checked_in version code.now) }
{
    match check_at(alloc, code, version) {
        Ok(checked) => Ok(Some(Found {
            hash: checked.hash(),
            bound_hook: checked.bound_hook(),
            bound_cbak: checked.bound_cbak(),
        })),
        Err(found) => match found {
            CheckFault::NoMemory => Err(AllocError),
            _ => Ok(None),
        },
    }
}

// Puts a code's Definition, unless its hash has one.
fn define(
    ledger: &Ledger,
    overlay: Overlay,
    code: &Items<u8>,
    version: u16,
    found: Found,
) -> Result<Overlay, NoMemory>
    ensures defined { IfOk result (λ after. Becomes ledger.now.entries overlay after
        (defined version code.now (checked found.hash found.bound_hook found.bound_cbak))) }
{
    let key = Key::Definition(found.hash);
    if has(ledger, &overlay, &key) {
        return Ok(overlay);
    }
    let own = code.copy()?;
    let mut after = overlay;
    let definition = Entry::Definition {
        code: own,
        version,
        bound_hook: found.bound_hook,
        bound_cbak: found.bound_cbak,
    };
    after.put(key, definition)?;
    Ok(after)
}
