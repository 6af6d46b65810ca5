//! What a file says of a transaction's signature.

/// Whether a transaction's signature is right. The engine takes this from the file and checks no signature.
#[derive(Clone, Copy, Debug, PartialEq, Eq)]
pub enum Verdict {
    Good,
    Bad,
}
