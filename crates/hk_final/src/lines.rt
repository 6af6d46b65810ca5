//! The lines of a whole ledger.
ghost use Rattle.std.specs.Prelude.{◌≡◌, ◌++◌, IfOk, OnOk};
ghost use Rattle.std.specs.List.{flat_map};
ghost use Rattle.std.specs.FinMap as map;
ghost use Rattle.hk_state.specs.Balances.{balances};
ghost use Rattle.hk_final.specs.Final.{AreFew, final_lines, hooks_of, states_of, in_order};
ghost use Rattle.hk_final.specs.Entered.{entry_line};
ghost use Rattle.hk_final.specs.Totals.{EndsInTotal};
ghost use Rattle.hk_lines.specs.declared.output_line.OutputLine.TheVariants as printed;

use crate::counts::number_of;
use hk_base::{AccountId, Hash256, Items, NoMemory};
use hk_lines::OutputLine;
use hk_state::{Entry, Key, Ledger};
use std::alloc::Global;

/// The lines at the end of a replay, of a ledger of which the sum of all balances is known: each account, each Install,
/// each State entry and each queued emission in the order of their keys, and then the totals. It goes over all entries
/// once, and for each account over what the account has.
pub fn final_lines(alloc: Global, ledger: &Ledger, sum: u64) -> Result<Items<OutputLine>, NoMemory>
    requires balances { sum ≡ balances ledger.now.entries }
    requires few { AreFew ledger.now.entries }
    ensures lines { IfOk result (λ lines. lines ≡ final_lines ledger.now) }
    ensures total { IfOk result (λ lines. EndsInTotal ledger.now.burnt lines) }
{
    let mut lines = entry_lines(alloc, ledger)?;
    lines.push(OutputLine::FinalTotal {
        balances: sum,
        burnt: ledger.burnt(),
    })?;
    lines.push(OutputLine::Done)?;
    Ok(lines)
}

// The lines of all entries, in the order of their keys.
fn entry_lines(alloc: Global, ledger: &Ledger) -> Result<Items<OutputLine>, NoMemory>
    requires few { AreFew ledger.now.entries }
    ensures lines { IfOk result (λ lines. lines ≡ in_order (entry_line ledger.now.entries) ledger.now.entries) }
{
    let mut lines = Items::new(alloc);
    let mut next = ledger.first();
    while let Some((key, entry)) = next {
        push_line(&mut lines, ledger, key, entry)?;
        next = ledger.least_after(key);
    }
    Ok(lines)
}

// Adds an entry's line.
fn push_line(
    lines: &mut Items<OutputLine>,
    ledger: &Ledger,
    key: &Key,
    entry: &Entry,
) -> Result<(), NoMemory>
    requires few { AreFew ledger.now.entries }
    ensures ok { OnOk result (lines.new ≡ lines.old ++ entry_line ledger.now.entries key.now entry.now) }
{
    match (key, entry) {
        (Key::Account(id), Entry::Account { balance, sequence }) => {
            lines.push(account_line(ledger, id, *balance, *sequence))
        }
        (
            Key::Install(account, position),
            Entry::Install {
                hash,
                namespace,
                ..
            },
        ) => lines.push(OutputLine::FinalInstall {
            account: *account,
            position: *position,
            hash: *hash,
            namespace: *namespace,
        }),
        (Key::State(account, namespace, name), Entry::State(bytes)) => {
            lines.push(OutputLine::FinalState {
                account: *account,
                namespace: *namespace,
                key: *name,
                value: bytes.copy()?,
            })
        }
        (Key::Emitted(number), Entry::Emitted { first, last, .. }) => {
            lines.push(OutputLine::FinalQueued {
                number: *number,
                first: *first,
                last: *last,
            })
        }
        _ => Ok(()),
    }
}

// The line of an account, with the numbers of what it has.
fn account_line(ledger: &Ledger, id: &AccountId, balance: u64, sequence: u32) -> OutputLine
    requires few { AreFew ledger.now.entries }
    ensures line { result ≡ printed.FinalAccount id.now balance sequence
        (hooks_of ledger.now.entries id.now) (states_of ledger.now.entries id.now) }
{
    let least = Hash256([0; 32]);
    OutputLine::FinalAccount {
        id: *id,
        balance,
        sequence,
        hooks: number_of(ledger, &Key::Install(*id, 0)),
        states: number_of(ledger, &Key::State(*id, least, least)),
    }
}
