//! Laws of the encoding.
ghost use Rattle.wa_encode.specs.Fitting.{EncodedSpells};
ghost use Rattle.wa_encode.specs.Numbers.{SignedShortest, UnsignedShortest};

/// The law that an unsigned number is spelled by its shortest bytes, and each other spelling is longer.
pub fn unsigned_shortest()
    ensures law { UnsignedShortest }
{}

/// The law that a signed number is spelled by its shortest bytes, and each other spelling is longer.
pub fn signed_shortest()
    ensures law { SignedShortest }
{}

/// The law that the bytes of a module that fits spell it.
pub fn encoded_spells()
    ensures law { EncodedSpells }
{}
