/// Why a blob is no emission. The first that holds is answered.
#[derive(Clone, Copy, Debug, PartialEq, Eq)]
pub enum EmitFault {
    /// It has more than 1,000,000 bytes.
    TooLong,
    /// It is no object.
    Unparsed,
    /// Sequence is there and isn't 0.
    SequenceNotZero,
    /// EmitDetails isn't there, or isn't this execution's with one of its nonces.
    Details,
    /// The fields are no emitted transaction.
    Malformed,
    /// It changes hooks.
    BadKind,
    /// Account isn't the hook's.
    NotOwn,
    /// SigningPubKey isn't 33 zero bytes.
    KeyNotZero,
    /// TxnSignature is there.
    Signed,
    /// FirstLedgerSequence is missing, or not above the open ledger's.
    First,
    /// LastLedgerSequence is missing, below the first, or more than five above it.
    Last,
    /// More than ten emissions lead to it.
    Generation,
    /// There was no memory for it.
    NoMemory,
}
