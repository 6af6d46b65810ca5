//! Laws of the texts.
ghost use Rattle.wa_text.specs.Fitting.{AssembledFits, AssembledSpells};
ghost use Rattle.wa_text.specs.Worked.{WorkedTexts};

/// The law that the module which a text of at most 1,048,576 bytes means fits.
pub fn assembled_fits()
    ensures law { AssembledFits }
{}

/// The law that the bytes of the module which a text of at most 1,048,576 bytes means spell it.
pub fn assembled_spells()
    ensures law { AssembledSpells }
{}

/// The law that some short texts mean what they are to mean.
pub fn worked_texts()
    ensures law { WorkedTexts }
{}
