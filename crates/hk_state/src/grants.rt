//! Which hooks may write to an account's state.
ghost use Rattle.std.specs.Prelude.{◌≡◌, ◌&&◌};
ghost use Rattle.std.specs.List.{list_any};
ghost use Rattle.std.specs.FinMap as map;
ghost use Rattle.hk_state.specs.Grants.{may_write, has_grant, is_granted, is_for};
ghost use Rattle.hk_state.specs.Reserves.{first_install, is_own};

use crate::reserves::is_own;
use crate::{Entry, Key, Ledger};
use hk_base::{AccountId, Hash256};
use xo_object::Grant;

/// Whether the hook of a hash on the actor's account may write state of the owner's in a namespace: the owner's is its
/// own, or some hook of the owner in that namespace grants it to that hash, for any account or for the actor. It takes
/// no memory.
pub fn may_write(
    ledger: &Ledger,
    hash: &Hash256,
    actor: &AccountId,
    owner: &AccountId,
    namespace: &Hash256,
) -> bool
    ensures may { result ≡ may_write ledger.now.entries hash.now actor.now owner.now namespace.now }
{
    owner == actor || is_granted_by(ledger, hash, actor, owner, namespace)
}

// Whether an Install of the owner grants it.
fn is_granted_by(
    ledger: &Ledger,
    hash: &Hash256,
    actor: &AccountId,
    owner: &AccountId,
    namespace: &Hash256,
) -> bool
    ensures granted { result
        ≡ list_any (λ e. is_own (first_install owner.now) e.0 && has_grant hash.now actor.now namespace.now e.1)
        (map.entries ledger.now.entries) }
{
    let first = Key::Install(*owner, 0);
    let mut next = ledger.least_from(&first);
    while let Some((key, entry)) = next {
        if !is_own(&first, key) {
            return false;
        }
        if has_grant(entry, hash, actor, namespace) {
            return true;
        }
        next = ledger.least_after(key);
    }
    false
}

fn has_grant(entry: &Entry, hash: &Hash256, actor: &AccountId, namespace: &Hash256) -> bool
    ensures has { result ≡ has_grant hash.now actor.now namespace.now entry.now }
{
    match entry {
        Entry::Install {
            namespace: space,
            grants,
            ..
        } => space == namespace && is_granted(grants.as_slice(), hash, actor),
        _ => false,
    }
}

fn is_granted(grants: &[Grant], hash: &Hash256, actor: &AccountId) -> bool
    ensures granted { result ≡ list_any (is_granted hash.now actor.now) grants.now }
{
    for grant in grants {
        if grant.hash == *hash && is_for(actor, &grant.account) {
            return true;
        }
    }
    false
}

fn is_for(actor: &AccountId, account: &Option<AccountId>) -> bool
    ensures is { result ≡ is_for actor.now account.now }
{
    match account {
        None => true,
        Some(account) => account == actor,
    }
}
