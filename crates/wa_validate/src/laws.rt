ghost use Rattle.wa_validate.specs.AreTyped.{TypingDecided};

/// The law that the test `are_typed` holds exactly of the modules whose functions are well typed.
pub fn typing_decided()
    ensures law { TypingDecided }
{}
