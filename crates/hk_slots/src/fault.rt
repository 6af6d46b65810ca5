/// Why a call on slots is refused. The first that holds is answered.
#[derive(Clone, Copy, Debug, PartialEq, Eq)]
pub enum SlotFault {
    /// A number is above 255.
    BadNumber,
    /// The slot that is read is 0 or empty, or it has no such field or element.
    DoesntExist,
    /// The slot is no object.
    NotAnObject,
    /// The slot is no array.
    NotAnArray,
    /// No slot is free for the target 0.
    NoFreeSlots,
    /// There was no memory for the bytes.
    NoMemory,
}
