//! Names as they are printed.
use cases::{CaseFault, Words};
use hk_base::Trap;
use hk_lines::{ResultName, Rule, Settlement};

const RESULTS: [ResultName; 22] = [
    ResultName::TooLong,
    ResultName::Unparsed,
    ResultName::Malformed,
    ResultName::BadSignature,
    ResultName::NoAccount,
    ResultName::PastSequence,
    ResultName::FutureSequence,
    ResultName::Early,
    ResultName::Expired,
    ResultName::FeeTooSmall,
    ResultName::FeeUnfunded,
    ResultName::HookRejected,
    ResultName::Unsupported,
    ResultName::Redundant,
    ResultName::NoDestination,
    ResultName::Unfunded,
    ResultName::Occupied,
    ResultName::HookRefused,
    ResultName::NoDefinition,
    ResultName::NoInstall,
    ResultName::Reserve,
    ResultName::Success,
];

const RULES: [Rule; 12] = [
    Rule::LineTooLong,
    Rule::BadWord,
    Rule::BadShape,
    Rule::BadOrder,
    Rule::RepeatedAccount,
    Rule::Total,
    Rule::NoEnd,
    Rule::Object,
    Rule::JsonText,
    Rule::JsonKey,
    Rule::JsonValue,
    Rule::JsonDeep,
];

/// The result with this name.
pub fn result(words: &mut Words<'_>) -> Result<ResultName, CaseFault> {
    let name = words.word()?;
    let found = RESULTS.iter().find(|known| known.name() == name);
    found.copied().ok_or(CaseFault::BadCase)
}

/// The result with this name, or none for `-`.
pub fn result_or_none(words: &mut Words<'_>) -> Result<Option<ResultName>, CaseFault> {
    let name = words.word()?;
    if name == "-" {
        return Ok(None);
    }
    match RESULTS.iter().find(|known| known.name() == name) {
        Some(found) => Ok(Some(*found)),
        None => Err(CaseFault::BadCase),
    }
}

/// The rule with this name.
pub fn rule(words: &mut Words<'_>) -> Result<Rule, CaseFault> {
    let name = words.word()?;
    let found = RULES.iter().find(|known| known.name() == name);
    found.copied().ok_or(CaseFault::BadCase)
}

/// The settlement with this name.
pub fn settlement(words: &mut Words<'_>) -> Result<Settlement, CaseFault> {
    match words.word()? {
        "applied" => Ok(Settlement::Applied),
        "refused" => Ok(Settlement::Refused),
        "expired" => Ok(Settlement::Expired),
        _ => Err(CaseFault::BadCase),
    }
}

/// The trap with this name.
pub fn trap(words: &mut Words<'_>) -> Result<Trap, CaseFault> {
    match words.word()? {
        "unreachable" => Ok(Trap::Unreachable),
        "divide_by_zero" => Ok(Trap::DivideByZero),
        "divide_overflow" => Ok(Trap::DivideOverflow),
        "memory" => Ok(Trap::Memory),
        _ => Err(CaseFault::BadCase),
    }
}
