//! The lines of what is kept.
ghost use Rattle.std.specs.Prelude.{◌≡◌, ◌+◌, ◌<◌, ◌^◌, ◌++◌, length, OnOk};
ghost use Rattle.hk_events.specs.Printed.{emit_lines, state_lines};
ghost use Rattle.hk_state.specs.Rules.{state_keys};
ghost use Rattle.hk_state.specs.Writes.{with_writes};

use crate::emits::push_emits;
use crate::states::push_states;
use hk_base::{Items, NoMemory};
use hk_emit::Emission;
use hk_lines::OutputLine;
use hk_state::{Ledger, Overlay};

/// Adds the lines of the State keys that an overlay lists, and of emissions, of which the first has this number.
pub(crate) fn push_kept(
    lines: &mut Items<OutputLine>,
    ledger: &Ledger,
    overlay: &Overlay,
    first: u64,
    emissions: &[Emission],
) -> Result<(), NoMemory>
    requires numbers { first + length emissions.now < 2 ^ 64 }
    ensures ok { OnOk result (lines.new ≡ lines.old
        ++ (state_lines (with_writes ledger.now.entries overlay.now) (state_keys overlay.now.listed)
        ++ emit_lines first emissions.now)) }
{
    push_states(lines, ledger, overlay)?;
    push_emits(lines, first, emissions)
}
