//! Laws of what is given.
ghost use Rattle.hk_asm.specs.Assembling.{GivesStatus, ShownLate};

/// The law that a text with the end of input behind it has a status.
pub fn gives_status()
    ensures law { GivesStatus }
{}

/// The law that nothing is told before the limit, while more may come.
pub fn shown_late()
    ensures law { ShownLate }
{}
