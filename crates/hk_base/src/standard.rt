//! Std's readers and writers as sources and sinks.
ghost use Rattle.std.specs.Prelude.{◌≡◌};
ghost use Rattle.std.proofs.Math.Nat.{min-le_right};
ghost use Rattle.hk_base.specs.Outside.{last_count};
ghost use Rattle.hk_base.specs.Standard.{reader_of, read_faults, writer_of, write_faults};

use crate::{Failed, Sink, SinkStop, Source};
use std::io::{ErrorKind, Read, Write};

/// A reader of std as a source. It tells the bytes that the reader tells.
#[derive(Drop)]
pub struct StdSource<R: Read> {
    reader: R,
    faults: u64,
}

impl<R: Read> StdSource<R> {
    pub fn new(reader: R) -> StdSource<R>
        ensures reader { reader_of result ≡ reader }
        ensures faults { read_faults result ≡ 0 }
    {
        StdSource { reader, faults: 0 }
    }
}

impl<R: Read> Source for StdSource<R> {
    ghost left = { λ source. R.remaining (reader_of source) };

    ghost faults = { read_faults };

    ghost at_most_last = { λ source. min-le_right source.faults last_count };

    fn read(&mut self, into: &mut [u8]) -> Result<usize, Failed> {
        match self.reader.read(into) {
            Ok(count) => Ok(count),
            Err(_) => {
                self.faults = self.faults.saturating_add(1);
                Err(Failed)
            }
        }
    }
}

/// A writer of std as a sink. It tells the bytes that the writer tells. A writer that takes 0 bytes has failed.
#[derive(Drop)]
pub struct StdSink<W: Write> {
    writer: W,
    faults: u64,
}

impl<W: Write> StdSink<W> {
    pub fn new(writer: W) -> StdSink<W>
        ensures writer { writer_of result ≡ writer }
        ensures faults { write_faults result ≡ 0 }
    {
        StdSink { writer, faults: 0 }
    }
}

impl<W: Write> Sink for StdSink<W> {
    ghost written = { λ sink. W.contents (writer_of sink) };

    ghost faults = { write_faults };

    ghost at_most_last = { λ sink. min-le_right sink.faults last_count };

    fn write(&mut self, piece: &[u8]) -> Result<usize, SinkStop> {
        match self.writer.write(piece) {
            Ok(count) if count > 0 => Ok(count),
            Err(error) if error.kind() == ErrorKind::OutOfMemory => Err(SinkStop::NoMemory),
            _ => {
                self.faults = self.faults.saturating_add(1);
                Err(SinkStop::Failed)
            }
        }
    }
}
