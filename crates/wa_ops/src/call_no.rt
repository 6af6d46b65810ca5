/// The row of an API call in the table of calls that the host offers.
#[derive(Clone, Copy, Debug, PartialEq, Eq)]
pub struct CallNo(pub u8);

impl CallNo {
    /// `_g`, the guard of a loop.
    pub const GUARD: CallNo = CallNo(0);
    /// `accept`, which ends the run.
    pub const ACCEPT: CallNo = CallNo(1);
    /// `rollback`, which ends the run.
    pub const ROLLBACK: CallNo = CallNo(2);
}
