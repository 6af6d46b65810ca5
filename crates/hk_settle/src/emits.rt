//! The `emit` lines of what was emitted.
ghost use Rattle.std.specs.Prelude.{◌≡◌, ◌+◌, ◌<◌, ◌^◌, ◌++◌, length, OnOk};
ghost use Rattle.hk_events.specs.Printed.{emit_lines};

use hk_base::{Items, NoMemory};
use hk_emit::Emission;
use hk_lines::OutputLine;

/// Adds the lines of emissions, of which the first has this number.
pub fn push_emits(
    lines: &mut Items<OutputLine>,
    first: u64,
    emissions: &[Emission],
) -> Result<(), NoMemory>
    requires numbers { first + length emissions.now < 2 ^ 64 }
    ensures ok { OnOk result (lines.new ≡ lines.old ++ emit_lines first emissions.now) }
{
    let mut number = first;
    for emission in emissions {
        lines.push(OutputLine::Emit {
            number,
            first: emission.first,
            last: emission.last,
        })?;
        number += 1;
    }
    Ok(())
}
