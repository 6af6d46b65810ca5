ghost use Rattle.std.specs.Prelude.{◌≡◌};
ghost use Rattle.xo_fields.specs.Form.{form_at};

/// How a value of a kind is written.
#[derive(Clone, Copy, Debug, PartialEq, Eq)]
pub enum Form {
    /// A number or a hash of so many bytes.
    Fixed(usize),
    /// An amount.
    Money,
    /// Bytes after their length.
    Blob,
    /// An account's 20 bytes after their length.
    Account,
    /// Fields and an end mark E1.
    Object,
    /// Elements and an end mark F1.
    Array,
}

/// The form of a kind's values, or `None` for a kind that the format doesn't have.
pub fn form_of(kind: u8) -> Option<Form>
    ensures form { result ≡ form_at kind }
{
    match kind {
        1 => Some(Form::Fixed(2)),
        2 => Some(Form::Fixed(4)),
        3 => Some(Form::Fixed(8)),
        4 => Some(Form::Fixed(16)),
        5 => Some(Form::Fixed(32)),
        6 => Some(Form::Money),
        7 => Some(Form::Blob),
        8 => Some(Form::Account),
        14 => Some(Form::Object),
        15 => Some(Form::Array),
        16 => Some(Form::Fixed(1)),
        17 => Some(Form::Fixed(20)),
        _ => None,
    }
}
