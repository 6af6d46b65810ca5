//! Writing to a sink.
ghost use Rattle.std.specs.Prelude.{◌≡◌, ◌≤◌, ◌++◌, List, ℕ, OnOk, OnErr, IsErrOf};
ghost use Rattle.std.specs.Io.KnownBytes.{Appends};
ghost use Rattle.hk_base.specs.Outside.{Rose};
ghost use Rattle.hk_loop.specs.Answers.{IsAnswer, WroteFront};
ghost use Rattle.hk_loop.specs.Causes.{HasSinkCause};

use hk_base::{Sink, SinkStop};
use hk_lines::Status;

/// Writes a text whole. After an error its front was written.
pub fn write_all<K: Sink>(sink: &mut K, text: &[u8]) -> Result<(), SinkStop>
    ensures whole { OnOk result (Appends (K.written sink.old) (K.written sink.new) text.now) }
    ensures front { OnErr result ((front : List ℕ) × (more : List ℕ) × (text.now ≡ front ++ more)
        × Appends (K.written sink.old) (K.written sink.new) front) }
    ensures later { K.faults sink.old ≤ K.faults sink.new }
    ensures failed { IsErrOf result SinkStop.Failed → Rose (K.faults sink.old) (K.faults sink.new) }
{
    let mut rest = text;
    while !rest.is_empty() {
        let count = sink.write(rest)?;
        rest = &rest[count..];
    }
    Ok(())
}

/// Writes a text and answers the status, or why not all of it was written.
pub fn write_answer<K: Sink>(sink: &mut K, text: &[u8], status: Status) -> Status
    requires answer { IsAnswer status }
    ensures whole { IsAnswer result → (result ≡ status) × Appends (K.written sink.old) (K.written sink.new) text.now }
    ensures front { ¬ IsAnswer result → WroteFront text.now (K.written sink.old) (K.written sink.new) }
    ensures full { result ≡ Status.TooLong → status ≡ Status.TooLong }
    ensures cause { HasSinkCause result (K.faults sink.old) (K.faults sink.new) }
{
    match write_all(sink, text) {
        Ok(()) => status,
        Err(SinkStop::Failed) => Status::WriteFault,
        Err(SinkStop::NoMemory) => Status::NoMemory,
    }
}
