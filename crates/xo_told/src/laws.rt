ghost use Rattle.xo_told.specs.Laws.{NeverMemory, TellsFaults, TellsFields};
ghost use Rattle.xo_told.specs.Worked.{WorkedTexts};

/// A text is told to show exactly the fields that it shows.
pub fn told_shows()
    ensures law { TellsFields }
{}

/// A text is told to fail with exactly the fault that it has, and never for want of memory.
pub fn told_refuses()
    ensures law { TellsFaults }
    ensures never { NeverMemory }
{}

/// The worked texts show their fields, and have their faults.
pub fn worked_texts()
    ensures law { WorkedTexts }
{}
