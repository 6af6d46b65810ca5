//! The names of fields.
ghost use Rattle.std.specs.Prelude.{◌≡◌};
ghost use Rattle.std.specs.Option.{option_map};
ghost use Rattle.xo_fields.specs.Name.{uint16_names, uint32_names, uint64_names, hash256_names, amount_names};
ghost use Rattle.xo_fields.specs.Name.{blob_names, account_id_names, object_names, array_names};
ghost use Rattle.xo_showing.specs.Name.{name_of, name_coded};

use xo_fields::FieldId;

/// The name of a field, or `None` where it has none. Takes no memory.
pub fn field_name(field: FieldId) -> Option<&'static [u8]>
    ensures name { option_map (λ name. name.now) result ≡ name_of field }
{
    match name_text(field) {
        Some(name) => Some(name.as_bytes()),
        None => None,
    }
}

/// The name of a field as a text.
#[tactic(auto, unfolding(crate::specs::Name::name_of))]
pub(crate) fn name_text(field: FieldId) -> Option<&'static str>
    ensures name { option_map (λ name. name.now) result ≡ name_of field }
{
    match field.kind {
        1 => uint16_name(field.code),
        2 => uint32_name(field.code),
        3 => uint64_name(field.code),
        5 => hash256_name(field.code),
        6 => amount_name(field.code),
        7 => blob_name(field.code),
        8 => account_id_name(field.code),
        14 => object_name(field.code),
        15 => array_name(field.code),
        _ => None,
    }
}

fn uint16_name(code: u8) -> Option<&'static str>
    ensures { option_map (λ name. name.now) result ≡ name_coded code uint16_names }
{
    match code {
        1 => Some("LedgerEntryType"),
        2 => Some("TransactionType"),
        20 => Some("HookApiVersion"),
        _ => None,
    }
}

fn uint32_name(code: u8) -> Option<&'static str>
    ensures { option_map (λ name. name.now) result ≡ name_coded code uint32_names }
{
    match code {
        2 => Some("Flags"),
        3 => Some("SourceTag"),
        4 => Some("Sequence"),
        13 => Some("OwnerCount"),
        14 => Some("DestinationTag"),
        26 => Some("FirstLedgerSequence"),
        27 => Some("LastLedgerSequence"),
        46 => Some("EmitGeneration"),
        _ => None,
    }
}

fn uint64_name(code: u8) -> Option<&'static str>
    ensures { option_map (λ name. name.now) result ≡ name_coded code uint64_names }
{
    match code {
        13 => Some("EmitBurden"),
        _ => None,
    }
}

fn hash256_name(code: u8) -> Option<&'static str>
    ensures { option_map (λ name. name.now) result ≡ name_coded code hash256_names }
{
    match code {
        11 => Some("EmitParentTxnID"),
        12 => Some("EmitNonce"),
        13 => Some("EmitHookHash"),
        17 => Some("InvoiceID"),
        20 => Some("HookOn"),
        30 => Some("HookStateKey"),
        31 => Some("HookHash"),
        32 => Some("HookNamespace"),
        _ => None,
    }
}

fn amount_name(code: u8) -> Option<&'static str>
    ensures { option_map (λ name. name.now) result ≡ name_coded code amount_names }
{
    match code {
        1 => Some("Amount"),
        2 => Some("Balance"),
        8 => Some("Fee"),
        9 => Some("SendMax"),
        10 => Some("DeliverMin"),
        _ => None,
    }
}

fn blob_name(code: u8) -> Option<&'static str>
    ensures { option_map (λ name. name.now) result ≡ name_coded code blob_names }
{
    match code {
        3 => Some("SigningPubKey"),
        4 => Some("TxnSignature"),
        11 => Some("CreateCode"),
        12 => Some("MemoType"),
        13 => Some("MemoData"),
        14 => Some("MemoFormat"),
        22 => Some("HookStateData"),
        24 => Some("HookParameterName"),
        25 => Some("HookParameterValue"),
        _ => None,
    }
}

fn account_id_name(code: u8) -> Option<&'static str>
    ensures { option_map (λ name. name.now) result ≡ name_coded code account_id_names }
{
    match code {
        1 => Some("Account"),
        3 => Some("Destination"),
        5 => Some("Authorize"),
        10 => Some("EmitCallback"),
        _ => None,
    }
}

fn object_name(code: u8) -> Option<&'static str>
    ensures { option_map (λ name. name.now) result ≡ name_coded code object_names }
{
    match code {
        10 => Some("Memo"),
        13 => Some("EmitDetails"),
        14 => Some("Hook"),
        23 => Some("HookParameter"),
        24 => Some("HookGrant"),
        _ => None,
    }
}

fn array_name(code: u8) -> Option<&'static str>
    ensures { option_map (λ name. name.now) result ≡ name_coded code array_names }
{
    match code {
        9 => Some("Memos"),
        11 => Some("Hooks"),
        19 => Some("HookParameters"),
        20 => Some("HookGrants"),
        _ => None,
    }
}
