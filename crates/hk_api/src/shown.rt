//! The objects that entries of the ledger show to hooks.
ghost use Rattle.std.specs.Prelude.{◌≡◌, ◌<◌, ◌≤◌, ◌^◌, length, None, IfOk, IfSome, OnOk, OnErr};
ghost use Rattle.std.specs.Option.{option_map};
ghost use Rattle.hk_state.specs.Writes.{with_writes};
ghost use Rattle.xo_list.specs.Item.{lookup, spell, with_item};
ghost use Rattle.xo_list.specs.List.{IsFit};
ghost use Rattle.hk_api.specs.Shown as rows;

use crate::keylets::owner_count;
use hk_base::{AccountId, Hash256, NoMemory};
use hk_state::{Entry, Key, Ledger, Overlay};
use std::alloc::{AllocError, Global};
use xo_fields::{Amount, FieldId, write_amount};
use xo_object::{Object, ObjectBuilder};

const LEDGER_ENTRY_TYPE: FieldId = FieldId { kind: 1, code: 1 };

const FLAGS: FieldId = FieldId { kind: 2, code: 2 };

const SEQUENCE: FieldId = FieldId { kind: 2, code: 4 };

const OWNER_COUNT: FieldId = FieldId { kind: 2, code: 13 };

const HOOK_STATE_KEY: FieldId = FieldId { kind: 5, code: 30 };

const BALANCE: FieldId = FieldId { kind: 6, code: 2 };

const HOOK_STATE_DATA: FieldId = FieldId { kind: 7, code: 22 };

const ACCOUNT: FieldId = FieldId { kind: 8, code: 1 };

/// The most bytes of a field.
const LONGEST: usize = 918_744;

/// The drops that no amount reaches.
const DROPS_END: u64 = 1 << 62;

/// Puts a field that isn't there yet.
fn put(object: &mut ObjectBuilder, field: FieldId, value: &[u8]) -> Result<(), NoMemory>
    requires absent { lookup field object.old ≡ None }
    requires fit { IsFit field value.now }
    ensures ok { OnOk result (object.new ≡ with_item (rows.item field value.now) object.old) }
{
    match object.put(field, value) {
        Ok(()) => Ok(()),
        Err(_) => Err(AllocError),
    }
}

/// The object of an account's entry.
#[tactic(auto, using(crate::proofs::Sizes::account_short))]
fn account_object(
    alloc: Global,
    id: &AccountId,
    balance: u64,
    sequence: u32,
    owned: u32,
) -> Result<Object, NoMemory>
    requires drops { balance < 2 ^ 62 }
    ensures bytes { IfOk result (λ object. object.bytes ≡ spell (rows.account_fields id.now balance sequence owned)) }
    ensures short { IfOk result (λ object. length object.bytes < 2 ^ 32) }
{
    let mut object = ObjectBuilder::new(alloc);
    put(&mut object, LEDGER_ENTRY_TYPE, &[0x00, 0x61])?;
    put(&mut object, FLAGS, &[0; 4])?;
    put(&mut object, SEQUENCE, &sequence.to_be_bytes())?;
    put(&mut object, OWNER_COUNT, &owned.to_be_bytes())?;
    let (amount, size) = write_amount(&Amount::Native(balance));
    put(&mut object, BALANCE, &amount[..size])?;
    put(&mut object, ACCOUNT, &id.0)?;
    object.finish()
}

/// The object of a State entry.
#[tactic(auto, using(crate::proofs::Sizes::state_short))]
fn state_object(alloc: Global, key: &Hash256, bytes: &[u8]) -> Result<Object, NoMemory>
    requires few { length bytes.now ≤ 918744 }
    ensures bytes { IfOk result (λ object. object.bytes ≡ spell (rows.state_fields key.now bytes.now)) }
    ensures short { IfOk result (λ object. length object.bytes < 2 ^ 32) }
{
    let mut object = ObjectBuilder::new(alloc);
    put(&mut object, LEDGER_ENTRY_TYPE, &[0x00, 0x76])?;
    put(&mut object, HOOK_STATE_KEY, &key.0)?;
    put(&mut object, HOOK_STATE_DATA, bytes)?;
    object.finish()
}

/// The object that an entry shows.
#[tactic(auto, unfolding(crate::specs::Shown::shown))]
pub(crate) fn shown(
    alloc: Global,
    ledger: &Ledger,
    overlay: &Overlay,
    key: &Key,
    entry: &Entry,
) -> Result<Option<Object>, NoMemory>
    ensures shown { IfOk result (λ found. option_map (λ object. object.bytes) found ≡
        rows.shown (with_writes ledger.now.entries overlay.now) key.now entry.now) }
    ensures short { IfOk result (λ found. IfSome found (λ object. length object.bytes < 2 ^ 32)) }
{
    match (key, entry) {
        (Key::Account(id), Entry::Account { balance, sequence }) => {
            if *balance >= DROPS_END {
                return Ok(None);
            }
            let owned = owner_count(ledger, overlay, id);
            Ok(Some(account_object(alloc, id, *balance, *sequence, owned)?))
        }
        (Key::State(_, _, key), Entry::State(bytes)) => {
            if bytes.len() > LONGEST {
                return Ok(None);
            }
            Ok(Some(state_object(alloc, key, bytes.as_slice())?))
        }
        _ => Ok(None),
    }
}
