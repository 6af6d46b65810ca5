//! Emissions that go into the queue.
ghost use Rattle.std.specs.Prelude.{◌≡◌, ◌+◌, ◌<◌, ◌^◌, length, IfOk};
ghost use Rattle.hk_events.specs.Events.{queued};
ghost use Rattle.hk_events.specs.Overlays.{all_queued};

use hk_base::{Items, NoMemory};
use hk_emit::Emission;
use hk_state::{Entry, Key, Overlay};
use xo_object::Transaction;

/// The overlay with emissions written under their numbers, of which this is the first.
pub(crate) fn queue_all(
    overlay: Overlay,
    first: u64,
    emissions: Items<Emission>,
) -> Result<Overlay, NoMemory>
    requires numbers { first + length emissions < 2 ^ 64 }
    ensures queued { IfOk result (λ made. made ≡ all_queued overlay first emissions) }
{
    let mut overlay = overlay;
    let mut number = first;
    for emission in emissions.into_vec() {
        overlay.put(Key::Emitted(number), waiting(emission))?;
        number += 1;
    }
    Ok(overlay)
}

/// The entry of an emission that waits.
fn waiting(emission: Emission) -> Entry
    ensures queued { result ≡ queued emission }
{
    let Emission {
        transaction,
        hash,
        first,
        last,
        callback,
        ..
    } = emission;
    let Transaction { blob, .. } = transaction;
    Entry::Emitted {
        blob,
        hash,
        first,
        last,
        callback,
    }
}
