/// Why a text shows no object.
#[derive(Clone, Copy, Debug, PartialEq, Eq)]
pub enum JsonFault {
    /// The text isn't JSON.
    BadText,
    /// A key is no field's.
    BadKey,
    /// A value is none that the key's field shows.
    BadValue,
    /// More than ten objects and arrays would be open.
    TooDeep,
    /// There was no memory for the answer.
    NoMemory,
}
