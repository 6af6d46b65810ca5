ghost use Rattle.hk_rules.specs.Ruling.{RulesDecided};

/// The law that the test `is_ruled` holds exactly of the modules that meet the rules.
pub fn rules_decided()
    ensures law { RulesDecided }
{}
