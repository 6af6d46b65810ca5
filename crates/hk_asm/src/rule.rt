//! How a wrong line is told.
ghost use Rattle.std.specs.Prelude.{◌≡◌, IfOk, string_bytes};
ghost use Rattle.hk_asm.specs.Assembling.{broken, rule_name};

use hk_base::NoMemory;
use std::alloc::Global;
use wa_text::AsmRule;

/// `bad <line> <rule>`, by the number of the line and the rule that it breaks.
pub(crate) fn broken_line(alloc: Global, line: u32, rule: AsmRule) -> Result<String, NoMemory>
    ensures text { IfOk result (λ text. string_bytes text ≡ (broken line rule).text) }
{
    let name = rule_name(rule);
    format!(in alloc; "bad {line} {name}\n")
}

/// The name of a rule as it is printed.
fn rule_name(rule: AsmRule) -> &'static str
    ensures name { result.now ≡ rule_name rule }
{
    match rule {
        AsmRule::BadWord => "bad_word",
        AsmRule::BadShape => "bad_shape",
        AsmRule::BadOrder => "bad_order",
        AsmRule::UnknownName => "unknown_name",
        AsmRule::RepeatedName => "repeated_name",
        AsmRule::Unbalanced => "unbalanced",
    }
}
