//! Sources and sinks in memory.
ghost use Rattle.std.specs.Prelude.{◌≡◌, ◌<◌, ◌≤◌, ◌++◌, ◌↔◌, [], length, min, take, drop, is_err, if◌then◌else◌};
ghost use Rattle.std.specs.Prelude.{Contains, Some, Ok, IfErr, IfOk, IsErr, IsErrOf, IsTrue, OnErr, OnOk};
ghost use Rattle.hk_base.specs.Outside.{last_count, next_count, told_count};
ghost use Rattle.std.proofs.Math.Nat.{min-le_right};

use crate::{Failed, Sink, SinkStop, Source};
use std::alloc::Global;
use std::marker::Model;

/// Bytes in memory that are read in pieces, by calls that never fail.
#[derive(Drop)]
pub struct HonestSource {
    bytes: Vec<u8>,
    at: usize,
    piece: usize,
}

impl Model for HonestSource {
    ghost use Rattle.std.specs.Prelude.{◌≤◌, drop, length, vec_len};
    ghost use Rattle.hk_base.specs.Memory.{HonestReads};

    ghost Value = { HonestReads };

    ghost view = { λ source. record { left = drop source.at source.bytes.items; piece = source.piece } };

    ghost invariant = { λ source. (source.at ≤ vec_len source.bytes) × (1 ≤ source.piece) };
}

impl HonestSource {
    /// A source of these bytes, which gives at most `piece` of them at a time.
    pub fn new(bytes: Vec<u8>, piece: usize) -> HonestSource
        requires some { 1 ≤ piece }
        ensures told { result.left ≡ bytes.items }
        ensures piece { result.piece ≡ piece }
    {
        HonestSource {
            bytes,
            at: 0,
            piece,
        }
    }

    // Moves the next bytes into the front of the piece and answers how many.
    fn give(&mut self, into: &mut [u8]) -> usize
        ensures count { result ≡ min self.old.piece (min (length into.old) (length self.old.left)) }
        ensures given { take result into.new ≡ take result self.old.left }
        ensures left { self.new.left ≡ drop result self.old.left }
        ensures end { result ≡ 0 → 0 < length into.old → self.new.left ≡ [] }
        ensures piece { self.new.piece ≡ self.old.piece }
    {
        let left = &self.bytes[self.at..];
        let count = self.piece.min(into.len()).min(left.len());
        into[..count].copy_from_slice(&left[..count]);
        self.at += count;
        count
    }
}

impl Source for HonestSource {
    ghost left = { λ source. Some source.left };

    ghost faults = { λ _. 0 };

    ghost at_most_last = { λ _. min-le_right 0 last_count };

    fn read(&mut self, into: &mut [u8]) -> Result<usize, Failed>
        requires room { 0 < length into.old }
        ensures count { result ≡ Ok (min self.old.piece (min (length into.old) (length self.old.left))) }
        ensures within { IfOk result (λ count. count ≤ length into.new) }
        ensures moved { IfOk result (λ count. self.old.left ≡ take count into.new ++ self.new.left) }
        ensures end { IfOk result (λ count. count ≡ 0 → self.new.left ≡ []) }
        ensures piece { self.new.piece ≡ self.old.piece }
    {
        Ok(self.give(into))
    }
}

// The numbers of the calls that fail, counted from 1, and how many calls and faults there were.
#[derive(Drop)]
struct Calls {
    failing: Vec<u64>,
    calls: u64,
    faults: u64,
}

impl Calls {
    fn new(failing: Vec<u64>) -> Calls
        ensures failing { result.failing.items ≡ failing.items }
        ensures calls { result.calls ≡ 0 }
        ensures faults { result.faults ≡ 0 }
    {
        Calls {
            failing,
            calls: 0,
            faults: 0,
        }
    }

    // Counts a call, and a fault where that call fails, and answers whether it does.
    fn next_fails(&mut self) -> bool
        ensures fails { IsTrue result ↔ Contains self.old.failing.items (next_count self.old.calls) }
        ensures calls { self.new.calls ≡ next_count self.old.calls }
        ensures faults { self.new.faults ≡ (if result then next_count self.old.faults else self.old.faults) }
        ensures never_falls { self.old.faults ≤ self.new.faults }
        ensures failing { self.new.failing.items ≡ self.old.failing.items }
    {
        self.calls = self.calls.saturating_add(1);
        let fails = self.failing.contains(&self.calls);
        if fails {
            self.faults = self.faults.saturating_add(1);
        }
        fails
    }
}

/// Bytes in memory that are read in pieces, by calls some of which fail.
#[derive(Drop)]
pub struct MemSource {
    honest: HonestSource,
    calls: Calls,
}

impl Model for MemSource {
    ghost use Rattle.hk_base.specs.Memory.{MemoryReads};

    ghost Value = { MemoryReads };

    ghost view = { λ source. record {
      left = source.honest.left;
      piece = source.honest.piece;
      failing = source.calls.failing.items;
      calls = source.calls.calls;
      faults = source.calls.faults;
    } };
}

impl MemSource {
    /// A source of these bytes, which gives at most `piece` of them at a time and fails at the calls with the listed
    /// numbers, counted from 1.
    pub fn new(bytes: Vec<u8>, piece: usize, failing: Vec<u64>) -> MemSource
        requires some { 1 ≤ piece }
        ensures told { result.left ≡ bytes.items }
        ensures piece { result.piece ≡ piece }
        ensures failing { result.failing ≡ failing.items }
        ensures calls { result.calls ≡ 0 }
        ensures faults { result.faults ≡ 0 }
    {
        MemSource {
            honest: HonestSource::new(bytes, piece),
            calls: Calls::new(failing),
        }
    }
}

impl Source for MemSource {
    ghost left = { λ source. Some source.left };

    ghost faults = { λ source. told_count source.faults };

    ghost at_most_last = { λ source. min-le_right source.faults last_count };

    fn read(&mut self, into: &mut [u8]) -> Result<usize, Failed>
        requires room { 0 < length into.old }
        ensures fails { IsErr result ↔ Contains self.old.failing (next_count self.old.calls) }
        ensures count { IfOk result
            (λ count. count ≡ min self.old.piece (min (length into.old) (length self.old.left))) }
        ensures within { IfOk result (λ count. count ≤ length into.new) }
        ensures moved { IfOk result (λ count. self.old.left ≡ take count into.new ++ self.new.left) }
        ensures end { IfOk result (λ count. count ≡ 0 → self.new.left ≡ []) }
        ensures kept { OnErr result (self.new.left ≡ self.old.left) }
        ensures never_falls { self.old.faults ≤ self.new.faults }
        ensures calls { self.new.calls ≡ next_count self.old.calls }
        ensures faults { self.new.faults ≡ (if is_err result then next_count self.old.faults else self.old.faults) }
        ensures piece { self.new.piece ≡ self.old.piece }
        ensures failing { self.new.failing ≡ self.old.failing }
    {
        if self.calls.next_fails() {
            return Err(Failed);
        }
        self.honest.read(into)
    }
}

/// Bytes written to memory, by calls that fail only for want of memory.
#[derive(Drop)]
pub struct HonestSink {
    bytes: Vec<u8>,
}

impl Model for HonestSink {
    ghost use Rattle.std.specs.Prelude.{List, ℕ};

    ghost Value = { List ℕ };

    ghost view = { λ sink. sink.bytes.items };
}

impl HonestSink {
    /// A sink to which nothing was written. It takes no memory.
    pub fn new(alloc: Global) -> HonestSink
        ensures told { result ≡ [] }
    {
        HonestSink {
            bytes: Vec::new(alloc),
        }
    }

    /// The bytes written so far.
    pub fn written(&self) -> &[u8]
        ensures bytes { result.now ≡ self.now }
    {
        self.bytes.as_slice()
    }
}

impl Sink for HonestSink {
    ghost written = { λ sink. Some sink };

    ghost faults = { λ _. 0 };

    ghost at_most_last = { λ _. min-le_right 0 last_count };

    fn write(&mut self, piece: &[u8]) -> Result<usize, SinkStop>
        requires some { 0 < length piece.now }
        ensures count { IfOk result (λ count. count ≡ length piece.now) }
        ensures ok { OnOk result (self.new ≡ self.old ++ piece.now) }
        ensures err { OnErr result (self.new ≡ self.old) }
        ensures honest { IfErr result (λ stop. stop ≡ SinkStop.NoMemory) }
    {
        self.bytes.extend_from_slice(piece)?;
        Ok(piece.len())
    }
}

/// Bytes written to memory, by calls some of which fail.
#[derive(Drop)]
pub struct MemSink {
    honest: HonestSink,
    calls: Calls,
}

impl Model for MemSink {
    ghost use Rattle.hk_base.specs.Memory.{MemoryWrites};

    ghost Value = { MemoryWrites };

    ghost view = { λ sink. record {
      written = sink.honest;
      failing = sink.calls.failing.items;
      calls = sink.calls.calls;
      faults = sink.calls.faults;
    } };
}

impl MemSink {
    /// A sink to which nothing was written, and which fails at the calls with the listed numbers, counted from 1. It
    /// takes no memory.
    pub fn new(alloc: Global, failing: Vec<u64>) -> MemSink
        ensures told { result.written ≡ [] }
        ensures failing { result.failing ≡ failing.items }
        ensures calls { result.calls ≡ 0 }
        ensures faults { result.faults ≡ 0 }
    {
        MemSink {
            honest: HonestSink::new(alloc),
            calls: Calls::new(failing),
        }
    }

    /// The bytes written so far.
    pub fn written(&self) -> &[u8]
        ensures bytes { result.now ≡ self.now.written }
    {
        self.honest.written()
    }
}

impl Sink for MemSink {
    ghost written = { λ sink. Some sink.written };

    ghost faults = { λ sink. told_count sink.faults };

    ghost at_most_last = { λ sink. min-le_right sink.faults last_count };

    fn write(&mut self, piece: &[u8]) -> Result<usize, SinkStop>
        requires some { 0 < length piece.now }
        ensures fails { IsErrOf result SinkStop.Failed ↔ Contains self.old.failing (next_count self.old.calls) }
        ensures count { IfOk result (λ count. count ≡ length piece.now) }
        ensures ok { OnOk result (self.new.written ≡ self.old.written ++ piece.now) }
        ensures err { OnErr result (self.new.written ≡ self.old.written) }
        ensures never_falls { self.old.faults ≤ self.new.faults }
        ensures calls { self.new.calls ≡ next_count self.old.calls }
        ensures fault { IsErrOf result SinkStop.Failed → self.new.faults ≡ next_count self.old.faults }
        ensures no_fault { (IsErrOf result SinkStop.Failed → ⊥) → self.new.faults ≡ self.old.faults }
        ensures failing { self.new.failing ≡ self.old.failing }
    {
        if self.calls.next_fails() {
            return Err(SinkStop::Failed);
        }
        self.honest.write(piece)
    }
}
