//! Results of transactions.
ghost use Rattle.std.specs.Prelude.{◌≡◌};
ghost use Rattle.hk_lines.specs.Names.{result_name};

/// The result of a transaction, in the order in which they are decided.
///
/// The first eleven take no fee. The others take the fee and the sequence, and all but `Success` keep nothing else.
#[derive(Clone, Copy, Debug, PartialEq, Eq)]
pub enum ResultName {
    TooLong,
    Unparsed,
    Malformed,
    BadSignature,
    NoAccount,
    PastSequence,
    FutureSequence,
    Early,
    Expired,
    FeeTooSmall,
    FeeUnfunded,
    HookRejected,
    Unsupported,
    Redundant,
    NoDestination,
    Unfunded,
    Occupied,
    HookRefused,
    NoDefinition,
    NoInstall,
    Reserve,
    Success,
}

impl ResultName {
    /// The name as it is printed.
    pub fn name(&self) -> &'static str
        ensures name { result.now ≡ result_name self.now }
    {
        match self {
            ResultName::TooLong => "too_long",
            ResultName::Unparsed => "unparsed",
            ResultName::Malformed => "malformed",
            ResultName::BadSignature => "bad_signature",
            ResultName::NoAccount => "no_account",
            ResultName::PastSequence => "past_sequence",
            ResultName::FutureSequence => "future_sequence",
            ResultName::Early => "early",
            ResultName::Expired => "expired",
            ResultName::FeeTooSmall => "fee_too_small",
            ResultName::FeeUnfunded => "fee_unfunded",
            ResultName::HookRejected => "hook_rejected",
            ResultName::Unsupported => "unsupported",
            ResultName::Redundant => "redundant",
            ResultName::NoDestination => "no_destination",
            ResultName::Unfunded => "unfunded",
            ResultName::Occupied => "occupied",
            ResultName::HookRefused => "hook_refused",
            ResultName::NoDefinition => "no_definition",
            ResultName::NoInstall => "no_install",
            ResultName::Reserve => "reserve",
            ResultName::Success => "success",
        }
    }
}
