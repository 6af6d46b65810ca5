ghost use Rattle.std.specs.Prelude.{◌≡◌, ◌<◌, IfNone, IfSome};
ghost use Rattle.xo_fields.specs.declared.field.FieldId.{FieldId};
ghost use Rattle.xo_fields.specs.Field.{number, IsNumbered};

/// A field of an object: its kind and its code, each from 1 to 255.
#[derive(Clone, Copy, Debug, PartialEq, Eq)]
pub struct FieldId {
    pub kind: u8,
    pub code: u8,
}

impl FieldId {
    /// The number by which hooks name the field: 65,536 times the kind, and the code.
    pub fn number(self) -> u32
        ensures number { result ≡ number self }
        ensures bytes { (self.kind < 256) × (self.code < 256) }
    {
        u32::from(self.kind) * 65_536 + u32::from(self.code)
    }

    /// The field of a number, or `None` where no kind and code from 1 to 255 have it.
    pub fn from_number(n: u32) -> Option<FieldId>
        ensures found { IfSome result (λ field. IsNumbered field n) }
        ensures none { IfNone result ((field : FieldId) → IsNumbered field n → ⊥) }
    {
        let kind = n / 65_536;
        let code = n % 65_536;
        if kind == 0 || kind > 255 {
            return None;
        }
        if code == 0 || code > 255 {
            return None;
        }
        Some(FieldId {
            kind: kind as u8,
            code: code as u8,
        })
    }
}
