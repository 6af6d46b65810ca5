//! Rows 24 to 26: nothing is printed.
ghost use Rattle.std.specs.Prelude.{◌≡◌};
ghost use Rattle.hk_api_pure.specs.Traces as rows;

use hk_calls::{Code, Pair, inside};
use wa_num::Memory;

/// Row 24: a message and a value.
pub(crate) fn trace(memory: &Memory, message: Pair, value: Pair) -> Result<i64, Code>
    ensures { result ≡ rows.trace memory.now message value }
{
    inside(memory, message)?;
    inside(memory, value)?;
    Ok(0)
}

/// Rows 25 and 26: a message and a number, which may be any.
pub(crate) fn trace_number(memory: &Memory, message: Pair) -> Result<i64, Code>
    ensures { result ≡ rows.trace_number memory.now message }
{
    inside(memory, message)?;
    Ok(0)
}
