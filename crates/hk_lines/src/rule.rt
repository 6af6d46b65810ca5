//! The rules that input breaks.
ghost use Rattle.std.specs.Prelude.{◌≡◌};
ghost use Rattle.hk_lines.specs.Given.{rule_name};

/// A rule that a line breaks, in the order in which one line is tested.
#[derive(Clone, Copy, Debug, PartialEq, Eq)]
pub enum Rule {
    /// The line is longer than 2,097,152 bytes.
    LineTooLong,
    /// Its first word is none that the command takes.
    BadWord,
    /// Its words, digits or ranges aren't those of its form.
    BadShape,
    /// It may not stand at its place.
    BadOrder,
    /// It opens an account that was opened before.
    RepeatedAccount,
    /// It opens an account with more drops than there can be.
    Total,
    /// The input ends before its last line.
    NoEnd,
    /// Its bytes are no object.
    Object,
    /// Its text is no JSON.
    JsonText,
    /// A key of its JSON names no field that may stand there.
    JsonKey,
    /// A value of its JSON is none of its field.
    JsonValue,
    /// More objects and arrays of its JSON are open than may be.
    JsonDeep,
}

impl Rule {
    /// The name as it is printed.
    pub fn name(&self) -> &'static str
        ensures name { result.now ≡ rule_name self.now }
    {
        match self {
            Rule::LineTooLong => "line_too_long",
            Rule::BadWord => "bad_word",
            Rule::BadShape => "bad_shape",
            Rule::BadOrder => "bad_order",
            Rule::RepeatedAccount => "repeated_account",
            Rule::Total => "total",
            Rule::NoEnd => "no_end",
            Rule::Object => "object",
            Rule::JsonText => "json_text",
            Rule::JsonKey => "json_key",
            Rule::JsonValue => "json_value",
            Rule::JsonDeep => "json_deep",
        }
    }
}
