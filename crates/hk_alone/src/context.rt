//! What a hook that is run alone runs on.
ghost use Rattle.std.specs.Prelude.{◌≡◌, ◌≤◌, [], IfOk};
ghost use Rattle.hk_alone.specs.Context as context;
ghost use Rattle.hk_state.specs.declared.entry.Entry.TheVariants as entry;
ghost use Rattle.hk_state.specs.Writes.{with_writes};
ghost use Rattle.std.specs.FinMap as map;

use hk_api::{Place, Setting};
use hk_base::{AccountId, Hash256, Items, NoMemory};
use hk_bound::Checked;
use hk_reading::{Reading, read};
use hk_state::{Entry, Header, Key, Ledger, Overlay};
use std::alloc::Global;

const ZEROS: Hash256 = Hash256([0; 32]);

const ACCOUNT: AccountId = AccountId([0, 0, 0, 0, 0, 0, 0, 0, 0, 0, 0, 0, 0, 0, 0, 0, 0, 0, 0, 1]);

/// An Invoke of the account, with sequence 1 and a fee of 10 drops.
const INVOKE: [u8; 41] = [
    0x12, 0x00, 0x63, 0x24, 0x00, 0x00, 0x00, 0x01, 0x68, 0x40, 0x00, 0x00, 0x00, 0x00, 0x00, 0x00,
    0x0A, 0x73, 0x00, 0x81, 0x14, 0x00, 0x00, 0x00, 0x00, 0x00, 0x00, 0x00, 0x00, 0x00, 0x00, 0x00,
    0x00, 0x00, 0x00, 0x00, 0x00, 0x00, 0x00, 0x00, 0x01,
];

/// Its bytes.
#[tactic(auto, unfolding(crate::specs::Context::blob))]
fn invoke() -> &'static [u8]
    ensures bytes { result.now ≡ context.blob }
{
    &INVOKE
}

/// The Invoke, and a ledger of sequence 1, time 0 and a last hash of zeros.
pub(crate) fn setting(alloc: Global) -> Result<Setting, NoMemory>
    ensures setting { IfOk result (λ setting. setting ≡ context.setting) }
{
    match read(alloc, invoke())? {
        Reading::Transaction(transaction) => Ok(Setting {
            transaction,
            header: header(),
        }),
        _ => unreachable!(),
    }
}

fn header() -> Header
    ensures header { result ≡ context.setting.header }
{
    Header {
        seq: 1,
        time: 0,
        last_hash: ZEROS,
    }
}

/// The account on which the hook is installed.
#[tactic(auto, unfolding(crate::specs::Context::account))]
fn account() -> AccountId
    ensures account { result ≡ context.account }
{
    ACCOUNT
}

/// The ledger with the account, the hook that is installed there at position 0, and its code.
#[tactic(auto, unfolding(crate::specs::Context::entries))]
pub(crate) fn ledger(alloc: Global, checked: &Checked, code: &[u8]) -> Result<Ledger, NoMemory>
    ensures ledger { IfOk result (λ ledger. ledger ≡ context.ledger code.now checked.now) }
{
    let overlay = entries(alloc, account(), checked, code)?;
    let mut ledger = Ledger::new(alloc);
    ledger.set_header(header());
    ledger.commit(overlay, 0, 0)?;
    Ok(ledger)
}

/// The entries of an account with the hook, as writes.
fn entries(
    alloc: Global,
    owner: AccountId,
    checked: &Checked,
    code: &[u8],
) -> Result<Overlay, NoMemory>
    ensures entries { IfOk result (λ overlay. with_writes map.empty overlay ≡
        context.with_hook owner checked.now.hash
        (entry.Definition code.now checked.now.version checked.now.bound_hook checked.now.bound_cbak)) }
{
    let mut overlay = Overlay::new(alloc);
    let account = Entry::Account {
        balance: 100_000_000_000,
        sequence: 2,
    };
    overlay.put(Key::Account(owner), account)?;
    overlay.put(Key::Install(owner, 0), install(alloc, checked))?;
    overlay.put(
        Key::Definition(checked.hash()),
        definition(alloc, checked, code)?,
    )?;
    Ok(overlay)
}

fn install(alloc: Global, checked: &Checked) -> Entry
    ensures install { result ≡ entry.Install checked.now.hash context.zeros context.zeros [] [] }
{
    Entry::Install {
        hash: checked.hash(),
        on: ZEROS,
        namespace: ZEROS,
        parameters: Items::new(alloc),
        grants: Items::new(alloc),
    }
}

fn definition(alloc: Global, checked: &Checked, code: &[u8]) -> Result<Entry, NoMemory>
    ensures definition { IfOk result (λ definition. definition ≡
        entry.Definition code.now checked.now.version checked.now.bound_hook checked.now.bound_cbak) }
{
    let code = Vec::from_slice(alloc, code)?;
    Ok(Entry::Definition {
        code: Items::from_vec(code),
        version: checked.version(),
        bound_hook: checked.bound_hook(),
        bound_cbak: checked.bound_cbak(),
    })
}

/// Where the hook runs.
pub(crate) fn place(checked: &Checked) -> Place
    ensures place { result ≡ context.place checked.now }
    ensures small { checked.now.bound_hook ≤ 262143 }
{
    Place {
        account: account(),
        position: 0,
        hash: checked.hash(),
        namespace: ZEROS,
        callback: false,
        has_cbak: checked.bound_cbak().is_some(),
        version: checked.version(),
    }
}
