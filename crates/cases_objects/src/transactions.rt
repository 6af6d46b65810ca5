//! Transactions, and the items by which they install hooks.
use cases::{CaseFault, Words};
use hk_base::NoMemory;
use hk_reading::Reading;
use std::alloc::Global;
use xo_list::read_object;
use xo_object::{HookItem, Transaction, TransactionFault, read_transaction};

/// What bytes read as: as they are sent, or emitted, or their items, or of themselves.
pub fn read(call: &str, words: &mut Words<'_>) -> Result<String, CaseFault> {
    let bytes = words.bytes()?;
    match call {
        "reading" => reading(words.alloc, &bytes),
        _ => match transaction(words.alloc, &bytes, call == "emitted")? {
            Err(fault) => Ok(format!(in words.alloc; "{fault:?}")?),
            Ok(transaction) if call == "items" => items(words.alloc, &transaction),
            Ok(transaction) => Ok(told(words.alloc, &transaction)?),
        },
    }
}

fn reading(alloc: Global, bytes: &[u8]) -> Result<String, CaseFault> {
    match hk_reading::read(alloc, bytes)? {
        Reading::TooLong => Ok(String::from_str(alloc, "TooLong")?),
        Reading::Unparsed => Ok(String::from_str(alloc, "Unparsed")?),
        Reading::Malformed => Ok(String::from_str(alloc, "Malformed")?),
        Reading::Transaction(transaction) => Ok(told(alloc, &transaction)?),
    }
}

// A copy of what an object's bytes are.
fn transaction(
    alloc: Global,
    bytes: &[u8],
    emitted: bool,
) -> Result<Result<Transaction, TransactionFault>, CaseFault> {
    match read_object(alloc, bytes) {
        Err(_) => Err(CaseFault::BadCase),
        Ok(object) => match read_transaction(alloc, &object, emitted) {
            Err(fault) => Ok(Err(fault)),
            Ok(transaction) => Ok(Ok(transaction.copy()?)),
        },
    }
}

// A transaction in short: accounts by their first bytes, lists by their lengths.
fn told(alloc: Global, t: &Transaction) -> Result<String, NoMemory> {
    let from = t.account.0[0];
    let to = t.destination.map(|to| to.0[0]);
    let parameters = t.parameters.as_slice().len();
    let hooks = t.hooks.as_slice().len();
    let numbers = format!(in alloc;
        "type {} sequence {} fee {} first {:?} last {:?}",
        t.kind, t.sequence, t.fee, t.first, t.last
    )?;
    format!(in alloc;
        "{numbers} from {from} to {to:?} amount {:?} parameters {parameters} hooks {hooks} generation {} burden {} bytes {}",
        t.amount,
        t.generation,
        t.burden,
        t.blob.as_slice().len()
    )
}

fn items(alloc: Global, transaction: &Transaction) -> Result<String, CaseFault> {
    let mut text = String::new(alloc);
    for item in transaction.hooks.as_slice() {
        text = format!(in alloc; "{text}{};", item_told(alloc, item)?)?;
    }
    Ok(text)
}

// An item's form, how many parameters and grants it has, and whether it may replace.
fn item_told(alloc: Global, item: &HookItem) -> Result<String, NoMemory> {
    match item {
        HookItem::Noop => String::from_str(alloc, "Noop"),
        HookItem::DeleteNamespace(_) => String::from_str(alloc, "DeleteNamespace"),
        HookItem::Delete => String::from_str(alloc, "Delete"),
        HookItem::Create {
            version,
            parameters,
            grants,
            replace,
            ..
        } => format!(in alloc;
            "Create {version} {} {} {replace}",
            parameters.len(),
            grants.len()
        ),
        HookItem::Install {
            parameters,
            grants,
            replace,
            ..
        } => format!(in alloc; "Install {} {} {replace}", parameters.len(), grants.len()),
        HookItem::Update {
            parameters,
            grants,
            ..
        } => {
            let parameters = parameters.as_ref().map(|given| given.len());
            let grants = grants.as_ref().map(|given| given.len());
            format!(in alloc; "Update {parameters:?} {grants:?}")
        }
    }
}
