ghost use Rattle.std.specs.Prelude.{◌≡◌};
ghost use Rattle.hk_calls.specs.Codes.{number_of};

/// Why a call is refused (this project's own names and numbers, after the XRPL Hooks).
#[derive(Clone, Copy, Debug, PartialEq, Eq)]
pub enum Code {
    /// A pointer and a length that pass the memory's end.
    OutOfBounds,
    TooBig,
    TooSmall,
    DoesntExist,
    NoFreeSlots,
    InvalidArgument,
    AlreadySet,
    PrerequisiteNotMet,
    FeeTooLarge,
    EmissionFailure,
    TooManyNonces,
    TooManyEmittedTxn,
    /// The number of no field.
    InvalidField,
    /// The bytes aren't what the call reads.
    ParseError,
    NoSuchKeylet,
    NotAnArray,
    NotAnObject,
    DivisionByZero,
    XflOverflow,
    NotIouAmount,
    NotAnAmount,
    CantReturnNegative,
    NotAuthorized,
    TooManyParams,
    InvalidTxn,
    ReserveInsufficient,
    /// The bits of no XFL.
    InvalidFloat,
}

impl Code {
    /// The number by which the call answers.
    pub fn number(self) -> i64
        ensures { result ≡ number_of self }
    {
        match self {
            Code::OutOfBounds => -1,
            Code::TooBig => -3,
            Code::TooSmall => -4,
            Code::DoesntExist => -5,
            Code::NoFreeSlots => -6,
            Code::InvalidArgument => -7,
            Code::AlreadySet => -8,
            Code::PrerequisiteNotMet => -9,
            Code::FeeTooLarge => -10,
            Code::EmissionFailure => -11,
            Code::TooManyNonces => -12,
            Code::TooManyEmittedTxn => -13,
            Code::InvalidField => -17,
            Code::ParseError => -18,
            Code::NoSuchKeylet => -21,
            Code::NotAnArray => -22,
            Code::NotAnObject => -23,
            Code::DivisionByZero => -25,
            Code::XflOverflow => -30,
            Code::NotIouAmount => -31,
            Code::NotAnAmount => -32,
            Code::CantReturnNegative => -33,
            Code::NotAuthorized => -34,
            Code::TooManyParams => -36,
            Code::InvalidTxn => -37,
            Code::ReserveInsufficient => -38,
            Code::InvalidFloat => -10_024,
        }
    }
}
