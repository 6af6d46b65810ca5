//! Laws of cutting, of what is given, and of lines.
ghost use Rattle.std.specs.Prelude.{List, ℕ};
ghost use Rattle.hk_lines.specs.Cut.{CutsJoined};
ghost use Rattle.hk_lines.specs.Cutting.{CutsPieces};
ghost use Rattle.hk_lines.specs.Ended.{GivesStatus};
ghost use Rattle.hk_lines.specs.Given.{Turn, StaysDue};
ghost use Rattle.hk_lines.specs.Lines.{Read, Machine, Fuses};

/// What goes on line by line, by what one line does in a state.
pub trait LineByLine {
    ghost turn: { Self → List ℕ → Turn Self };
}

/// Forms of lines and a machine that takes them, with what decides over their order.
pub trait LineMachine {
    ghost Line: { Type 0 };

    ghost Order: { Type 0 };

    ghost read: { Order → List ℕ → Read Order Line };

    ghost machine: { Machine Self Line };
}

/// The lines of joined bytes are the joined lines.
pub fn cuts_joined()
    ensures law { CutsJoined }
{}

/// What is due stays due, whatever comes behind the bytes.
pub fn stays_due<T: LineByLine>()
    ensures law { StaysDue T.turn }
{}

/// Whatever the bytes, with the end of input behind them they give a text and a status.
pub fn gives_status<T: LineByLine>()
    ensures law { GivesStatus T.turn }
{}

/// Reading and running line by line gives what the machine gives for the lines.
pub fn fuses<M: LineMachine>()
    ensures law { Fuses M.read M.machine }
{}

/// The lines and the rest of pieces are those of the joined bytes.
pub fn cuts_pieces()
    ensures law { CutsPieces }
{}
