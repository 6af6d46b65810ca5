//! The removal of a namespace of an account.
ghost use Rattle.std.specs.Prelude.{◌≡◌, IfOk};
ghost use Rattle.std.specs.Option.{option_map};
ghost use Rattle.std.specs.Map.Iter.{deref_pair};
ghost use Rattle.wa_ops.specs.Typing.{and_then};
ghost use Rattle.hk_events.specs.Items.{emptied, key_in};
ghost use Rattle.hk_items.specs.Endings.{Becomes};

use hk_base::{AccountId, Hash256, NoMemory};
use hk_state::{Entry, Key, Ledger, Overlay, StateKey, as_key};

/// Removes each State entry of an account in a namespace. It goes over these entries alone.
pub fn empty(
    ledger: &Ledger,
    overlay: Overlay,
    owner: &AccountId,
    namespace: &Hash256,
) -> Result<Overlay, NoMemory>
    ensures emptied { IfOk result (λ after. Becomes ledger.now.entries overlay after
        (emptied owner.now namespace.now)) }
{
    let first = Key::State(*owner, *namespace, Hash256([0; 32]));
    let mut after = overlay;
    let mut next = found_in(owner, namespace, after.least_from(ledger, &first));
    while let Some(state) = next {
        let key = as_key(&state);
        after.remove(key)?;
        next = found_in(owner, namespace, after.least_after(ledger, &key));
    }
    Ok(after)
}

// The key of an entry that was found, where it is in the namespace.
fn found_in(
    owner: &AccountId,
    namespace: &Hash256,
    found: Option<(&Key, &Entry)>,
) -> Option<StateKey>
    ensures found { result ≡ and_then (option_map deref_pair found.entry) (λ e. key_in owner.now namespace.now e.0) }
{
    match found {
        Some((key, _)) => key_in(owner, namespace, key),
        None => None,
    }
}

fn key_in(owner: &AccountId, namespace: &Hash256, key: &Key) -> Option<StateKey>
    ensures key { result ≡ key_in owner.now namespace.now key.now }
{
    match key {
        Key::State(id, space, of) => {
            let first = Key::State(*owner, *namespace, Hash256([0; 32]));
            if first.compare(key).is_le() && owner == id && space == namespace {
                Some(StateKey {
                    owner: *id,
                    namespace: *space,
                    key: *of,
                })
            } else {
                None
            }
        }
        _ => None,
    }
}
