ghost use Rattle.xfl.specs.Cut.{EachHasCut, HasOneCut};
ghost use Rattle.xfl.specs.Value.{BitsGiveBack, DecimalGivesBack};

/// A number above 0 has one cut to sixteen digits, and only one. A law alone: the call does nothing.
pub fn one_cut()
    ensures some { EachHasCut }
    ensures only { HasOneCut }
{}

/// Decimals and their bits are one to one. A law alone: the call does nothing.
pub fn one_to_one()
    ensures bits { BitsGiveBack }
    ensures decimals { DecimalGivesBack }
{}
