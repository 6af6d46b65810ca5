//! Numbers in decimal.
ghost use Rattle.std.specs.Prelude.{IfOk};
ghost use Rattle.xo_json.specs.Parts.{ReadsDecimal};

use hk_base::NoMemory;
use std::alloc::Global;

/// The number of a text in decimal, without sign and leading zeros, where it is at most `most`.
pub(crate) fn read_decimal(alloc: Global, most: u64, text: &str) -> Result<Option<u64>, NoMemory>
    ensures number { IfOk result (λ found. ReadsDecimal most text.now found) }
{
    let Ok(number) = text.parse::<u64>() else {
        return Ok(None);
    };
    let printed = number.to_string(alloc)?;
    if number > most || printed.as_str() != text {
        return Ok(None);
    }
    Ok(Some(number))
}
