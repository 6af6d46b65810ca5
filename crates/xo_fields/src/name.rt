ghost use Rattle.std.specs.Prelude.{◌≡◌};
ghost use Rattle.xo_fields.specs.Name.{field_named, code_named, named_among, kinds};
ghost use Rattle.xo_fields.specs.Name.{uint16_names, uint32_names, uint64_names, hash256_names, amount_names};
ghost use Rattle.xo_fields.specs.Name.{blob_names, account_id_names, object_names, array_names};

use crate::field::FieldId;

/// The field of a name, or `None` where no field has it.
pub fn field_by_name(name: &[u8]) -> Option<FieldId>
    ensures field { result ≡ field_named name.now }
{
    if let Some(code) = uint16_code(name) {
        return Some(FieldId { kind: 1, code });
    }
    if let Some(code) = uint32_code(name) {
        return Some(FieldId { kind: 2, code });
    }
    if let Some(code) = uint64_code(name) {
        return Some(FieldId { kind: 3, code });
    }
    if let Some(code) = hash256_code(name) {
        return Some(FieldId { kind: 5, code });
    }
    if let Some(code) = amount_code(name) {
        return Some(FieldId { kind: 6, code });
    }
    if let Some(code) = blob_code(name) {
        return Some(FieldId { kind: 7, code });
    }
    if let Some(code) = account_id_code(name) {
        return Some(FieldId { kind: 8, code });
    }
    if let Some(code) = object_code(name) {
        return Some(FieldId { kind: 14, code });
    }
    if let Some(code) = array_code(name) {
        return Some(FieldId { kind: 15, code });
    }
    None
}

/// The code of a field of kind UInt16.
fn uint16_code(name: &[u8]) -> Option<u8>
    ensures { result ≡ code_named name.now uint16_names }
{
    if name == b"LedgerEntryType".as_slice() {
        Some(1)
    } else if name == b"TransactionType".as_slice() {
        Some(2)
    } else if name == b"HookApiVersion".as_slice() {
        Some(20)
    } else {
        None
    }
}

/// The code of a field of kind UInt32.
fn uint32_code(name: &[u8]) -> Option<u8>
    ensures { result ≡ code_named name.now uint32_names }
{
    if name == b"Flags".as_slice() {
        Some(2)
    } else if name == b"SourceTag".as_slice() {
        Some(3)
    } else if name == b"Sequence".as_slice() {
        Some(4)
    } else if name == b"OwnerCount".as_slice() {
        Some(13)
    } else if name == b"DestinationTag".as_slice() {
        Some(14)
    } else if name == b"FirstLedgerSequence".as_slice() {
        Some(26)
    } else if name == b"LastLedgerSequence".as_slice() {
        Some(27)
    } else if name == b"EmitGeneration".as_slice() {
        Some(46)
    } else {
        None
    }
}

/// The code of a field of kind UInt64.
fn uint64_code(name: &[u8]) -> Option<u8>
    ensures { result ≡ code_named name.now uint64_names }
{
    if name == b"EmitBurden".as_slice() {
        Some(13)
    } else {
        None
    }
}

/// The code of a field of kind Hash256.
fn hash256_code(name: &[u8]) -> Option<u8>
    ensures { result ≡ code_named name.now hash256_names }
{
    if name == b"EmitParentTxnID".as_slice() {
        Some(11)
    } else if name == b"EmitNonce".as_slice() {
        Some(12)
    } else if name == b"EmitHookHash".as_slice() {
        Some(13)
    } else if name == b"InvoiceID".as_slice() {
        Some(17)
    } else if name == b"HookOn".as_slice() {
        Some(20)
    } else if name == b"HookStateKey".as_slice() {
        Some(30)
    } else if name == b"HookHash".as_slice() {
        Some(31)
    } else if name == b"HookNamespace".as_slice() {
        Some(32)
    } else {
        None
    }
}

/// The code of a field of kind Amount.
fn amount_code(name: &[u8]) -> Option<u8>
    ensures { result ≡ code_named name.now amount_names }
{
    if name == b"Amount".as_slice() {
        Some(1)
    } else if name == b"Balance".as_slice() {
        Some(2)
    } else if name == b"Fee".as_slice() {
        Some(8)
    } else if name == b"SendMax".as_slice() {
        Some(9)
    } else if name == b"DeliverMin".as_slice() {
        Some(10)
    } else {
        None
    }
}

/// The code of a field of kind Blob.
fn blob_code(name: &[u8]) -> Option<u8>
    ensures { result ≡ code_named name.now blob_names }
{
    if name == b"SigningPubKey".as_slice() {
        Some(3)
    } else if name == b"TxnSignature".as_slice() {
        Some(4)
    } else if name == b"CreateCode".as_slice() {
        Some(11)
    } else if name == b"MemoType".as_slice() {
        Some(12)
    } else if name == b"MemoData".as_slice() {
        Some(13)
    } else if name == b"MemoFormat".as_slice() {
        Some(14)
    } else if name == b"HookStateData".as_slice() {
        Some(22)
    } else if name == b"HookParameterName".as_slice() {
        Some(24)
    } else if name == b"HookParameterValue".as_slice() {
        Some(25)
    } else {
        None
    }
}

/// The code of a field of kind AccountID.
fn account_id_code(name: &[u8]) -> Option<u8>
    ensures { result ≡ code_named name.now account_id_names }
{
    if name == b"Account".as_slice() {
        Some(1)
    } else if name == b"Destination".as_slice() {
        Some(3)
    } else if name == b"Authorize".as_slice() {
        Some(5)
    } else if name == b"EmitCallback".as_slice() {
        Some(10)
    } else {
        None
    }
}

/// The code of a field of kind Object.
fn object_code(name: &[u8]) -> Option<u8>
    ensures { result ≡ code_named name.now object_names }
{
    if name == b"Memo".as_slice() {
        Some(10)
    } else if name == b"EmitDetails".as_slice() {
        Some(13)
    } else if name == b"Hook".as_slice() {
        Some(14)
    } else if name == b"HookParameter".as_slice() {
        Some(23)
    } else if name == b"HookGrant".as_slice() {
        Some(24)
    } else {
        None
    }
}

/// The code of a field of kind Array.
fn array_code(name: &[u8]) -> Option<u8>
    ensures { result ≡ code_named name.now array_names }
{
    if name == b"Memos".as_slice() {
        Some(9)
    } else if name == b"Hooks".as_slice() {
        Some(11)
    } else if name == b"HookParameters".as_slice() {
        Some(19)
    } else if name == b"HookGrants".as_slice() {
        Some(20)
    } else {
        None
    }
}
