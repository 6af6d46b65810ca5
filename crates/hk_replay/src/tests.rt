//! The whole program over pieces and faults, which no file of input can say.
ghost use Rattle.std.specs.Prelude.{◌≤◌};

use crate::{Status, top};
use hk_base::{MemSink, MemSource};
use std::test::Fail;

// A hook that accepts with an empty text.
const HOOK: &str =
    "hook 0061736d01000000010d0260017f017e60037f7f7e017e020e0103656e76066163636570740001030201000708\
0104686f6f6b00010a0c010a0041004100420010000b\nend\n";

// A payment of 1,000,000 drops.
const PAYMENT: &str = "account 1111111111111111111111111111111111111111 20000000 1
account 2222222222222222222222222222222222222222 10000000 1
ledger 5 100 0000000000000000000000000000000000000000000000000000000000000000
tx good 12000024000000016140000000000f424068400000000000000a73008114\
111111111111111111111111111111111111111183142222222222222222222222222222222222222222
end
";

const PAID: &str = "ledger 5
tx 1 success fee 10
final account 1111111111111111111111111111111111111111 18999990 2 0 0
final account 2222222222222222222222222222222222222222 11000000 1 0 0
final total 29999990 burnt 10
done
";

const RAN: &str = "accepted 0 - count 4 bound 5\n";

#[test]
fn pieces_change_nothing_and_faults_are_told(rt: HostRuntime) -> Result<(), Fail> {
    let alloc = rt.alloc();
    // the word and its input, how much a read gives, the read and the write that fail, the answer and the text
    let rows: [(&str, &str, usize, u64, u64, Status, &str); 9] = [
        ("run", HOOK, 1, 0, 0, Status::Done, RAN),
        ("run", HOOK, 64, 0, 0, Status::Done, RAN),
        ("run", HOOK, 64, 3, 0, Status::ReadFault, ""),
        ("run", HOOK, 64, 0, 1, Status::WriteFault, ""),
        ("replay", PAYMENT, 1, 0, 0, Status::Done, PAID),
        ("replay", PAYMENT, 7, 0, 0, Status::Done, PAID),
        ("replay", PAYMENT, 64, 2, 0, Status::ReadFault, ""),
        ("replay", PAYMENT, 64, 5, 0, Status::ReadFault, "ledger 5\n"),
        (
            "replay",
            PAYMENT,
            64,
            0,
            2,
            Status::WriteFault,
            "ledger 5\n",
        ),
    ];
    for (word, input, piece, read, write, status, text) in rows {
        let mut words = Vec::new(alloc);
        words.push(String::from_str(alloc, word)?)?;
        let bytes = Vec::from_slice(alloc, input.as_bytes())?;
        let mut source = MemSource::new(bytes, piece.max(1), Vec::from_slice(alloc, &[read])?);
        let mut sink = MemSink::new(alloc, Vec::from_slice(alloc, &[write])?);
        let answer = top(alloc, words.as_slice(), &mut source, &mut sink);
        assert_eq!(rt; answer, status, "at {word} by {piece}, {read}, {write}");
        assert_eq!(rt;
            sink.written(),
            text.as_bytes(),
            "at {word} by {piece}, {read}, {write}"
        );
    }
    Ok(())
}
