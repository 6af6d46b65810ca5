ghost use Rattle.wa_ops.specs.HookRules.{RulesByName};

/// The law that a module which meets the list of rules meets each rule by its name.
pub fn rules_by_name()
    ensures law { RulesByName }
{}
