//! Laws of the forms of lines.
ghost use Rattle.hk_lines.specs.Spelling.{ReadsSpelled, ReadsNamed, ReadsShaped};

/// Words are read as a line exactly where they spell it.
pub fn reads_spelled()
    ensures law { ReadsSpelled }
{}

/// Words are a bad word exactly where they begin with the name of no form.
pub fn reads_named()
    ensures law { ReadsNamed }
{}

/// Words are a bad shape exactly where they begin with the name of a form and spell no line.
pub fn reads_shaped()
    ensures law { ReadsShaped }
{}
