/// Why a part isn't found or an edit isn't made. The first that holds is answered.
#[derive(Clone, Copy, Debug, PartialEq, Eq)]
pub enum EditFault {
    /// The object, or what is put into it, has more bytes than an edit takes.
    TooBig,
    /// The bytes are no object or array, or what is put isn't exactly that field.
    ParseError,
    /// There is no such field or element.
    DoesntExist,
    /// There was no memory for the answer.
    NoMemory,
}
