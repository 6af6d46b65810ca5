//! The fields that an emission is asked for.
use xo_fields::FieldId;

pub(crate) const SEQUENCE: FieldId = FieldId { kind: 2, code: 4 };

pub(crate) const SIGNING_PUB_KEY: FieldId = FieldId { kind: 7, code: 3 };

pub(crate) const TXN_SIGNATURE: FieldId = FieldId { kind: 7, code: 4 };

pub(crate) const EMIT_DETAILS: FieldId = FieldId { kind: 14, code: 13 };
