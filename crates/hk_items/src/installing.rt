//! Items that install a hook, or change one.
ghost use Rattle.std.specs.Prelude.{◌≡◌, ◌&&◌, not, is_some, IfOk};
ghost use Rattle.std.specs.Option.{option_copied, unwrap_or};
ghost use Rattle.std.specs.FinMap as map;
ghost use Rattle.hk_state.specs.declared.entry.Entry.TheVariants as entry;
ghost use Rattle.hk_state.specs.declared.key.Key.TheVariants as key;
ghost use Rattle.hk_state.specs.Writes.{with_writes};
ghost use Rattle.xo_object.specs.declared.transaction.HookItem.TheVariants as item;
ghost use Rattle.hk_events.specs.Items.{item_end};
ghost use Rattle.hk_items.specs.Endings.{Performs, plain, changed};

use crate::place::{Place, has, put_hook};
use hk_base::{Hash256, Items, NoMemory};
use hk_lines::ResultName;
use hk_state::{Done, Entry, Key, Ledger, Overlay};
use xo_object::{Grant, Parameter, copy_parameters};

/// What an item that installs a hook says of it besides its code.
#[derive(Clone, Copy)]
pub struct Terms<'a> {
    pub on: Hash256,
    pub namespace: Hash256,
    pub parameters: &'a Items<Parameter>,
    pub grants: &'a Items<Grant>,
    pub replace: bool,
}

/// The hook of a hash, with copies of what the item lends.
pub fn install_of(hash: Hash256, terms: Terms) -> Result<Entry, NoMemory>
    ensures install { IfOk result (λ install. install ≡ entry.Install hash terms.entry.on terms.entry.namespace
        terms.entry.parameters.now terms.entry.grants.now) }
{
    let parameters = copy_parameters(terms.parameters.allocator(), terms.parameters.as_slice())?;
    let grants = terms.grants.copy()?;
    Ok(Entry::Install {
        hash,
        on: terms.on,
        namespace: terms.namespace,
        parameters,
        grants,
    })
}

/// Whether a hook is there that may not be replaced.
pub fn is_occupied(ledger: &Ledger, overlay: &Overlay, place: Place, replace: bool) -> bool
    ensures occupied { result ≡ (is_some (map.get (with_writes ledger.now.entries overlay.now)
        (key.Install place.owner place.position)) && not replace) }
{
    has(ledger, overlay, &place.key()) && !replace
}

/// Installs code that the ledger has.
pub fn install(
    ledger: &Ledger,
    overlay: Overlay,
    place: Place,
    hash: Hash256,
    terms: Terms,
) -> Result<Done, NoMemory>
    ensures end { IfOk result (λ done. Performs ledger.now.entries overlay done
        (item_end plain place.owner place.position (item.Install hash terms.entry.on terms.entry.namespace
        terms.entry.parameters.now terms.entry.grants.now terms.entry.replace))) }
{
    if is_occupied(ledger, &overlay, place, terms.replace) {
        return Ok(Done::Failed(ResultName::Occupied));
    }
    if !has(ledger, &overlay, &Key::Definition(hash)) {
        return Ok(Done::Failed(ResultName::NoDefinition));
    }
    let install = install_of(hash, terms)?;
    let after = put_hook(overlay, place, install)?;
    Ok(Done::Kept(after))
}

/// Replaces what is given of a hook that is there.
pub fn update(
    ledger: &Ledger,
    overlay: Overlay,
    place: Place,
    on: Option<Hash256>,
    namespace: Option<Hash256>,
    parameters: &Option<Items<Parameter>>,
    grants: &Option<Items<Grant>>,
) -> Result<Done, NoMemory>
    ensures end { IfOk result (λ done. Performs ledger.now.entries overlay done
        (item_end plain place.owner place.position (item.Update on namespace parameters.now grants.now))) }
{
    let was = overlay.get(ledger, &place.key());
    match changed(was, on, namespace, parameters, grants)? {
        None => Ok(Done::Failed(ResultName::NoInstall)),
        Some(install) => {
            let after = put_hook(overlay, place, install)?;
            Ok(Done::Kept(after))
        }
    }
}

// A hook with what is given in place of what it has.
fn changed(
    was: Option<&Entry>,
    on: Option<Hash256>,
    namespace: Option<Hash256>,
    parameters: &Option<Items<Parameter>>,
    grants: &Option<Items<Grant>>,
) -> Result<Option<Entry>, NoMemory>
    ensures changed { IfOk result (λ install. install ≡ changed on namespace parameters.now grants.now
        (option_copied was.entry)) }
{
    match was {
        Some(
            Entry::Install {
                hash,
                on: was_on,
                namespace: was_namespace,
                parameters: was_parameters,
                grants: was_grants,
            },
        ) => {
            let parameters = given_parameters(parameters, was_parameters)?;
            let grants = given_grants(grants, was_grants)?;
            Ok(Some(Entry::Install {
                hash: *hash,
                on: on.unwrap_or(*was_on),
                namespace: namespace.unwrap_or(*was_namespace),
                parameters,
                grants,
            }))
        }
        _ => Ok(None),
    }
}

fn given_parameters(
    given: &Option<Items<Parameter>>,
    was: &Items<Parameter>,
) -> Result<Items<Parameter>, NoMemory>
    ensures given { IfOk result (λ copied. copied ≡ unwrap_or given.now was.now) }
{
    match given {
        None => copy_parameters(was.allocator(), was.as_slice()),
        Some(given) => copy_parameters(given.allocator(), given.as_slice()),
    }
}

fn given_grants(given: &Option<Items<Grant>>, was: &Items<Grant>) -> Result<Items<Grant>, NoMemory>
    ensures given { IfOk result (λ copied. copied ≡ unwrap_or given.now was.now) }
{
    match given {
        None => was.copy(),
        Some(given) => given.copy(),
    }
}
