//! The fields of transactions and of the items that install hooks.
use xo_fields::FieldId;

pub const TRANSACTION_TYPE: FieldId = FieldId { kind: 1, code: 2 };

pub const HOOK_API_VERSION: FieldId = FieldId { kind: 1, code: 20 };

pub const FLAGS: FieldId = FieldId { kind: 2, code: 2 };

pub const SEQUENCE: FieldId = FieldId { kind: 2, code: 4 };

pub const FIRST_LEDGER_SEQUENCE: FieldId = FieldId { kind: 2, code: 26 };

pub const LAST_LEDGER_SEQUENCE: FieldId = FieldId { kind: 2, code: 27 };

pub const EMIT_GENERATION: FieldId = FieldId { kind: 2, code: 46 };

pub const EMIT_BURDEN: FieldId = FieldId { kind: 3, code: 13 };

pub const EMIT_PARENT: FieldId = FieldId { kind: 5, code: 11 };

pub const EMIT_NONCE: FieldId = FieldId { kind: 5, code: 12 };

pub const EMIT_HOOK_HASH: FieldId = FieldId { kind: 5, code: 13 };

pub const HOOK_ON: FieldId = FieldId { kind: 5, code: 20 };

pub const HOOK_HASH: FieldId = FieldId { kind: 5, code: 31 };

pub const HOOK_NAMESPACE: FieldId = FieldId { kind: 5, code: 32 };

pub const AMOUNT: FieldId = FieldId { kind: 6, code: 1 };

pub const FEE: FieldId = FieldId { kind: 6, code: 8 };

pub const SEND_MAX: FieldId = FieldId { kind: 6, code: 9 };

pub const DELIVER_MIN: FieldId = FieldId { kind: 6, code: 10 };

pub const SIGNING_PUB_KEY: FieldId = FieldId { kind: 7, code: 3 };

pub const CREATE_CODE: FieldId = FieldId { kind: 7, code: 11 };

pub const PARAMETER_NAME: FieldId = FieldId { kind: 7, code: 24 };

pub const PARAMETER_VALUE: FieldId = FieldId { kind: 7, code: 25 };

pub const ACCOUNT: FieldId = FieldId { kind: 8, code: 1 };

pub const DESTINATION: FieldId = FieldId { kind: 8, code: 3 };

pub const AUTHORIZE: FieldId = FieldId { kind: 8, code: 5 };

pub const EMIT_CALLBACK: FieldId = FieldId { kind: 8, code: 10 };

pub const EMIT_DETAILS: FieldId = FieldId { kind: 14, code: 13 };

pub const HOOKS: FieldId = FieldId { kind: 15, code: 11 };

pub const HOOK_PARAMETERS: FieldId = FieldId { kind: 15, code: 19 };

pub const HOOK_GRANTS: FieldId = FieldId { kind: 15, code: 20 };
