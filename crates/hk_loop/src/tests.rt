//! A small command over pieces, small limits and faults, which no file of input can say.
ghost use Rattle.std.specs.Prelude.{◌≤◌, ◌^◌, ◌+◌, ◌-◌, ◌++◌, ◌∷◌, [], Some, codes, min, if◌then◌else◌};
ghost use Rattle.std.specs.Fmt.{decimal};
ghost use Rattle.std.specs.Str.{bytes_eq};
ghost use Rattle.std.proofs.Math.Nat.{min-le_right};
ghost use Rattle.hk_base.specs.Outside.{last_count};
ghost use Rattle.hk_lines.specs.Given.{goes, ends, wrong};
ghost use Rattle.hk_lines.specs.declared.rule.Rule.TheVariants.{BadWord};
ghost use Rattle.hk_lines.specs.declared.status.Status.TheVariants.{Done};

use crate::{Command, Turned, go_through};
use hk_base::{HonestSink, HonestSource, MemSink, MemSource, NoMemory, Sink, SinkStop, Source};
use hk_lines::{Rule, Status};
use std::alloc::Global;
use std::test::Fail;

// Prints each line back, and at the end how many there were.
#[derive(Drop)]
struct Echo {
    lines: u64,
}

impl Command for Echo {
    ghost turn = { λ echo line.
        if bytes_eq line (codes "end") then ends (codes "lines " ++ (decimal echo.lines ++ 10 ∷ [])) Done
        else if bytes_eq line (codes "wrong") then wrong BadWord
        else goes (record { lines = min (echo.lines + 1) (2 ^ 64 - 1) }) (line ++ 10 ∷ []) };

    fn line(&mut self, alloc: Global, line: &[u8], out: &mut Vec<u8>) -> Result<Turned, NoMemory> {
        if line == b"end".as_slice() {
            let lines = self.lines;
            let text = format!(in alloc; "lines {lines}\n")?;
            out.extend_from_slice(text.as_bytes())?;
            return Ok(Turned::Ends(Status::Done));
        }
        if line == b"wrong".as_slice() {
            return Ok(Turned::Wrong(Rule::BadWord));
        }
        self.lines = self.lines.saturating_add(1);
        out.extend_from_slice(line)?;
        out.extend_from_slice(b"\n")?;
        Ok(Turned::Goes)
    }
}

// How many bytes a source has left.
fn count_left(source: &mut HonestSource) -> Result<usize, Fail> {
    let mut count = 0usize;
    for _ in 0..100 {
        let mut into = [0; 16];
        let more = source.read(&mut into).map_err(|_| "a fault")?;
        count = count.saturating_add(more);
    }
    Ok(count)
}

#[test]
fn inputs_are_answered_in_any_pieces(rt: HostRuntime) -> Result<(), Fail> {
    let alloc = rt.alloc();
    // the limit, the input, the answer, the text, and what is left where each byte is a piece
    let rows: [(u16, &str, Status, &str, usize); 8] = [
        (
            99,
            "a\n\r\n# b\nc\r\nend\nd\n",
            Status::Done,
            "a\nc\nlines 2\n",
            2,
        ),
        (99, "a\nend\r", Status::Done, "a\nlines 1\n", 0),
        (
            99,
            "a\n#\nwrong\nend\n",
            Status::BadInput,
            "a\nbad 3 bad_word\n",
            4,
        ),
        (99, "a\n#\nb", Status::BadInput, "a\nb\nbad 4 no_end\n", 0),
        (0, "", Status::TooLong, "too long\n", 0),
        (5, "a\nend\n", Status::TooLong, "a\ntoo long\n", 1),
        (6, "a\nend\nb", Status::Done, "a\nlines 1\n", 1),
        (6, "a\nend", Status::Done, "a\nlines 1\n", 0),
    ];
    for (limit, input, status, text, left) in rows {
        for piece in [1usize, 2, 7, 4096] {
            let bytes = Vec::from_slice(alloc, input.as_bytes())?;
            let mut source = HonestSource::new(bytes, piece);
            let mut sink = HonestSink::new(alloc);
            let most = usize::from(limit);
            let answer = go_through(alloc, most, &mut Echo { lines: 0 }, &mut source, &mut sink);
            assert_eq!(rt; answer, status, "at {input} by {piece}");
            assert_eq!(rt; sink.written(), text.as_bytes(), "at {input} by {piece}");
            if piece == 1 {
                assert_eq!(rt; count_left(&mut source)?, left, "at {input}");
            }
        }
    }
    Ok(())
}

#[test]
fn a_failed_read_or_write_stops_it(rt: HostRuntime) -> Result<(), Fail> {
    let alloc = rt.alloc();
    // the read and the write that fail: each line has one of its own
    let rows: [(u64, u64, Status, &str); 6] = [
        (1, 0, Status::ReadFault, ""),
        (4, 0, Status::ReadFault, "a\nb\nc\n"),
        (5, 0, Status::ReadFault, "a\nb\nc\n"),
        (6, 0, Status::Done, "a\nb\nc\nlines 3\n"),
        (0, 4, Status::WriteFault, "a\nb\nc\n"),
        // the write is due before the next read
        (3, 2, Status::WriteFault, "a\n"),
    ];
    for (read, write, status, text) in rows {
        let bytes = Vec::from_slice(alloc, b"a\nb\nc\nend\n")?;
        let mut source = MemSource::new(bytes, 2, Vec::from_slice(alloc, &[read])?);
        let mut sink = MemSink::new(alloc, Vec::from_slice(alloc, &[write])?);
        let answer = go_through(alloc, 99, &mut Echo { lines: 0 }, &mut source, &mut sink);
        assert_eq!(rt; answer, status, "at {read} and {write}");
        assert_eq!(rt; sink.written(), text.as_bytes(), "at {read} and {write}");
    }
    Ok(())
}

// Takes one byte of each piece.
#[derive(Drop)]
struct Slow {
    sink: HonestSink,
}

impl Sink for Slow {
    ghost written = { λ slow. Some slow.sink };

    ghost faults = { λ _. 0 };

    ghost at_most_last = { λ _. min-le_right 0 last_count };

    fn write(&mut self, piece: &[u8]) -> Result<usize, SinkStop> {
        self.sink.write(&piece[..1])
    }
}

#[test]
fn a_sink_may_take_less_than_it_is_given(rt: HostRuntime) -> Result<(), Fail> {
    let alloc = rt.alloc();
    let mut source = HonestSource::new(Vec::from_slice(alloc, b"a\nb\nend\n")?, 64);
    let mut slow = Slow {
        sink: HonestSink::new(alloc),
    };
    let answer = go_through(alloc, 99, &mut Echo { lines: 0 }, &mut source, &mut slow);
    assert_eq!(rt; answer, Status::Done);
    assert_eq!(rt; slow.sink.written(), b"a\nb\nlines 2\n".as_slice());
    Ok(())
}
