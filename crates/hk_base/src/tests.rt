//! Known answers from outside, and each call once where it succeeds.
ghost use Rattle.std.specs.Prelude.{◌≡◌};
ghost use Rattle.std.specs.Ordering.{nat_cmp};
ghost use Rattle.std.specs.Cmp.Lexicographic.{slice_cmp};

use crate::{
    AccountId, Failed, HalfHash, Hash256, HonestSink, HonestSource, Items, MemSink, MemSource,
    Sink, SinkStop, Source, StdSink, StdSource, account_index, hex_to_bytes, push_hex, sha512half,
    state_index, tx_id,
};
use std::alloc::{AllocError, Global};
use std::cmp::Ordering;
use std::io;
use std::io::{ErrorKind, Write};
use std::test::Fail;

const A: AccountId = AccountId([0x11; 20]);

// The order of ids is that of their bytes.
fn order_of_ids(first: &AccountId, second: &AccountId) -> Ordering
    ensures bytes { result ≡ slice_cmp nat_cmp first.now.0 second.now.0 }
{
    first.cmp(second)
}

// The order of hashes is that of their bytes.
fn order_of_hashes(first: &Hash256, second: &Hash256) -> Ordering
    ensures bytes { result ≡ slice_cmp nat_cmp first.now.0 second.now.0 }
{
    first.cmp(second)
}

fn hex_of(alloc: Global, hash: Hash256) -> Result<Vec<u8>, AllocError> {
    let mut text = Vec::new(alloc);
    push_hex(&mut text, &hash.0)?;
    Ok(text)
}

// The expected hashes were computed by Python's hashlib and by sha512sum.
#[test]
fn hashes_are_those_of_other_programs(rt: HostRuntime) -> Result<(), Fail> {
    let alloc = rt.alloc();
    let vectors = [
        (
            "",
            "cf83e1357eefb8bdf1542850d66d8007d620e4050b5715dc83f4a921d36ce9ce",
        ),
        (
            "616263",
            "ddaf35a193617abacc417349ae20413112e6fa4e89a97ea20a9eeee64b55d39a",
        ),
    ];
    for (message, half) in vectors {
        let bytes = hex_to_bytes(alloc, message.as_bytes())?.ok_or("no hex")?;
        let whole = hex_of(alloc, sha512half(&bytes))?;
        assert_eq!(rt; whole.as_slice(), half.as_bytes());
        let mut pieces = HalfHash::new();
        pieces.add(&bytes);
        pieces.add(b"");
        let joined = hex_of(alloc, pieces.finish())?;
        assert_eq!(rt; joined.as_slice(), half.as_bytes());
    }
    let blob =
        b"12000024000000016140000000000f424068400000000000000a730081141111111111111111111111111111111111111111\
83142222222222222222222222222222222222222222";
    let blob = hex_to_bytes(alloc, blob)?.ok_or("no hex")?;
    let named = [
        (
            tx_id(&blob),
            "d899d99658b061275c922098ce5ed0665a39c31f33e3246c101c506e4319fcde",
        ),
        (
            account_index(&A),
            "904d7d725f60af746ff6163f6978800cb684b4f59248920ffece3fc3ef1a9ea0",
        ),
        (
            state_index(&A, &Hash256([0x33; 32]), &Hash256([0x77; 32])),
            "18b5e72e78508c9168440be0f574514baa217a545d280551c9583c55d0ae0cbe",
        ),
    ];
    for (hash, text) in named {
        let found = hex_of(alloc, hash)?;
        assert_eq!(rt; found.as_slice(), text.as_bytes());
    }
    Ok(())
}

#[test]
fn ids_and_hashes_are_ordered_by_their_bytes(rt: HostRuntime) {
    let mut later = [0x11; 20];
    later[19] = 0x12;
    assert_eq!(rt; order_of_ids(&A, &AccountId(later)), Ordering::Less);
    assert_eq!(rt;
        order_of_hashes(&Hash256([2; 32]), &Hash256([1; 32])),
        Ordering::Greater
    );
}

#[test]
fn hex_text_goes_both_ways(rt: HostRuntime) -> Result<(), Fail> {
    let alloc = rt.alloc();
    let texts: [(&str, Option<&[u8]>); 6] = [
        ("", Some(b"")),
        ("00fF10", Some(b"\x00\xff\x10")),
        ("aAbB09", Some(b"\xaa\xbb\x09")),
        ("0", None),
        ("0g", None),
        ("G0", None),
    ];
    for (text, bytes) in texts {
        match hex_to_bytes(alloc, text.as_bytes())? {
            Some(found) => assert!(rt; bytes == Some(found.as_slice())),
            None => assert!(rt; bytes.is_none()),
        }
    }
    let mut text = Vec::from_slice(alloc, b"text ")?;
    push_hex(&mut text, b"\x00\x9a\xff")?;
    assert_eq!(rt; text.as_slice(), b"text 009aff".as_slice());
    Ok(())
}

#[test]
fn items_are_a_list(rt: HostRuntime) -> Result<(), Fail> {
    let alloc = rt.alloc();
    let mut items = Items::new(alloc);
    assert!(rt; items.is_empty());
    items.push(7u32)?;
    items.push(8)?;
    let copied = items.copy()?;
    assert_eq!(rt; copied.as_slice(), [7, 8].as_slice());
    assert_eq!(rt; copied.len(), 2);
    let same = Items::from_vec(items.into_vec());
    assert_eq!(rt; same.as_slice(), [7, 8].as_slice());
    Ok(())
}

// Reads once, through the trait.
fn read_from<S: Source>(source: &mut S, into: &mut [u8; 4]) -> Result<usize, Failed> {
    source.read(into)
}

// Writes once, through the trait.
fn write_to<K: Sink>(sink: &mut K, piece: &[u8; 4]) -> Result<usize, SinkStop> {
    sink.write(piece)
}

#[test]
fn sources_give_their_bytes_in_pieces(rt: HostRuntime) -> Result<(), Fail> {
    let alloc = rt.alloc();
    let mut into = [0; 4];
    let failing = Vec::from_slice(alloc, &[2])?;
    let mut failing = MemSource::new(Vec::from_slice(alloc, b"abcde")?, 3, failing);
    for (answer, piece) in [
        (Ok(3), b"abc\0"),
        (Err(Failed), b"abc\0"),
        (Ok(2), b"dec\0"),
        (Ok(0), b"dec\0"),
    ] {
        assert_eq!(rt; read_from(&mut failing, &mut into), answer);
        assert_eq!(rt; &into, piece);
    }
    let mut honest = HonestSource::new(Vec::from_slice(alloc, b"fghijk")?, 9);
    for (answer, piece) in [(Ok(4), b"fghi"), (Ok(2), b"jkhi"), (Ok(0), b"jkhi")] {
        assert_eq!(rt; read_from(&mut honest, &mut into), answer);
        assert_eq!(rt; &into, piece);
    }
    let mut standard = StdSource::new(b"lmnop".as_slice());
    for (answer, piece) in [(Ok(4), b"lmno"), (Ok(1), b"pmno"), (Ok(0), b"pmno")] {
        assert_eq!(rt; read_from(&mut standard, &mut into), answer);
        assert_eq!(rt; &into, piece);
    }
    Ok(())
}

#[test]
fn sinks_keep_what_is_written(rt: HostRuntime) -> Result<(), Fail> {
    let alloc = rt.alloc();
    let mut failing = MemSink::new(alloc, Vec::from_slice(alloc, &[2])?);
    for (piece, answer) in [
        (b"abcd", Ok(4)),
        (b"efgh", Err(SinkStop::Failed)),
        (b"ijkl", Ok(4)),
    ] {
        assert_eq!(rt; write_to(&mut failing, piece), answer);
    }
    assert_eq!(rt; failing.written(), b"abcdijkl".as_slice());
    let mut honest = HonestSink::new(alloc);
    assert_eq!(rt; write_to(&mut honest, b"mnop"), Ok(4));
    assert_eq!(rt; honest.written(), b"mnop".as_slice());
    let mut buffer = [0; 6];
    {
        let mut standard = StdSink::new(buffer.as_mut_slice());
        for answer in [Ok(4), Ok(2), Err(SinkStop::Failed)] {
            assert_eq!(rt; write_to(&mut standard, b"qrst"), answer);
        }
    }
    assert_eq!(rt; &buffer, b"qrstqr");
    Ok(())
}

// A writer whose calls fail in this way.
#[derive(Drop)]
struct Broken {
    kind: ErrorKind,
}

impl Write for Broken {
    fn write(&mut self, _: &[u8]) -> io::Result<usize> {
        Err(self.kind.into())
    }

    fn flush(&mut self) -> io::Result<()> {
        Ok(())
    }
}

#[test]
fn a_writer_that_fails_is_a_fault_and_no_want_of_memory(rt: HostRuntime) {
    for (kind, stop) in [
        (ErrorKind::Other, SinkStop::Failed),
        (ErrorKind::BrokenPipe, SinkStop::Failed),
        (ErrorKind::OutOfMemory, SinkStop::NoMemory),
    ] {
        let mut sink = StdSink::new(Broken { kind });
        assert_eq!(rt; write_to(&mut sink, b"abcd"), Err(stop));
    }
}
