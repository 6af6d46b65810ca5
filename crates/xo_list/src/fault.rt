/// Why bytes are no object: the fault of the leftmost field that fails.
#[derive(Clone, Copy, Debug, PartialEq, Eq)]
pub enum ObjectFault {
    /// The bytes end within a field, or before an end mark.
    Cut,
    /// No field has this header, or not here.
    UnknownField,
    /// A field isn't above the one before it.
    OutOfOrder,
    /// No length is written so, or an account's isn't 20.
    BadLength,
    /// No amount is written so.
    BadAmount,
    /// More than ten objects and arrays would be open.
    TooDeep,
    /// There was no memory for the answer.
    NoMemory,
}
