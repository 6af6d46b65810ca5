//! The `state` lines of what was written.
ghost use Rattle.std.specs.Prelude.{◌≡◌, ◌++◌, ◌∷◌, [], IfOk, OnOk};
ghost use Rattle.std.specs.Option.{option_copied};
ghost use Rattle.hk_events.specs.Printed.{state_lines, value_of};
ghost use Rattle.hk_state.specs.Rules.{state_keys};
ghost use Rattle.hk_state.specs.Writes.{with_writes};

use hk_base::{Items, NoMemory};
use hk_lines::OutputLine;
use hk_state::{Entry, Key, Ledger, Overlay};
use std::alloc::AllocError;

/// Adds the lines of the State keys that an overlay lists, in order, each with its last value.
pub fn push_states(
    lines: &mut Items<OutputLine>,
    ledger: &Ledger,
    overlay: &Overlay,
) -> Result<(), NoMemory>
    ensures ok { OnOk result (lines.new ≡ lines.old
        ++ state_lines (with_writes ledger.now.entries overlay.now) (state_keys overlay.now.listed)) }
{
    for place in 0..usize::MAX {
        match overlay.write(place) {
            None => return Ok(()),
            Some((key, _)) => push_state(lines, ledger, overlay, key)?,
        }
    }
    // No list has so many keys.
    Err(AllocError)
}

/// Adds the line of a key, where it is a State key.
fn push_state(
    lines: &mut Items<OutputLine>,
    ledger: &Ledger,
    overlay: &Overlay,
    key: &Key,
) -> Result<(), NoMemory>
    ensures ok { OnOk result (lines.new ≡ lines.old
        ++ state_lines (with_writes ledger.now.entries overlay.now) (state_keys (key.now ∷ []))) }
{
    if let Key::State(account, namespace, state_key) = key {
        let value = copied_value(overlay.get(ledger, key))?;
        lines.push(OutputLine::State {
            account: *account,
            namespace: *namespace,
            key: *state_key,
            value,
        })?;
    }
    Ok(())
}

/// The bytes of a State entry, none where there is none.
fn copied_value(entry: Option<&Entry>) -> Result<Option<Items<u8>>, NoMemory>
    ensures value { IfOk result (λ value. value ≡ value_of (option_copied entry.entry)) }
{
    match entry {
        Some(Entry::State(bytes)) => Ok(Some(bytes.copy()?)),
        _ => Ok(None),
    }
}
