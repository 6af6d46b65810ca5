ghost use Rattle.std.specs.Prelude.{◌≡◌};
ghost use Rattle.wa_ops.specs.Opcodes.{form_at};

/// The form of an opcode: what the bytes behind it are, for the opcodes that an instruction keeps.
#[derive(Clone, Copy, Debug, PartialEq, Eq)]
pub enum Form {
    /// A numeric instruction on integers; nothing follows.
    Number,
    /// A load of an integer; alignment and offset follow.
    Load,
    /// A store of an integer; alignment and offset follow.
    Store,
    /// A load or a store of a float; alignment and offset follow.
    FloatAccess,
    /// A numeric instruction on floats; nothing follows.
    FloatNumber,
    /// `f32.const` or `f64.const`; its 4 or 8 bytes follow.
    FloatConstant,
    /// Each other byte: an instruction with a form of its own, or none.
    Other,
}

/// The form of `opcode`.
pub fn form_of(opcode: u8) -> Form
    ensures form { result ≡ form_at opcode }
{
    match opcode {
        0x28 | 0x29 | 0x2C..=0x35 => Form::Load,
        0x36 | 0x37 | 0x3A..=0x3E => Form::Store,
        0x2A | 0x2B | 0x38 | 0x39 => Form::FloatAccess,
        0x43 | 0x44 => Form::FloatConstant,
        0x45..=0x5A | 0x67..=0x8A | 0xA7 | 0xAC | 0xAD | 0xC0..=0xC4 => Form::Number,
        0x5B..=0x66 | 0x8B..=0xA6 | 0xA8..=0xAB | 0xAE..=0xBF => Form::FloatNumber,
        _ => Form::Other,
    }
}
