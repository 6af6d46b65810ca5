//! What the bytes of a transaction read as.
ghost use Rattle.std.specs.Prelude.{◌≡◌, ◌<◌, ◌≤◌, length, Ok, IfOk, IfSome, IfNone, IsTrue, IsFalse};
ghost use Rattle.std.specs.Option.{option_map};
ghost use Rattle.xo_list.specs.Span.{items};
ghost use Rattle.xo_list.specs.Value.{IsObject, HasFields};
ghost use Rattle.hk_reading.specs.Parsing.{fields_of};
ghost use Rattle.hk_reading.specs.Readings.{Reads, IsCountable, longest};
ghost use Rattle.hk_reading.specs.Reading.{reading};

use hk_base::NoMemory;
use std::alloc::{AllocError, Global};
use xo_object::{
    Object, ObjectFault, Transaction, TransactionFault, one_reading, read_object, read_transaction,
};

/// The most bytes of a transaction.
const LONGEST: usize = 1_000_000;

/// What the bytes of a transaction read as.
#[derive(Debug, Drop)]
pub enum Reading {
    /// There are more bytes than a transaction may have.
    TooLong,
    /// They are no object.
    Unparsed,
    /// They are an object, and no transaction.
    Malformed,
    Transaction(Transaction),
}

/// Reads the bytes of a transaction that wasn't emitted. Bytes that are too long want no memory.
pub fn read(alloc: Global, bytes: &[u8]) -> Result<Reading, NoMemory>
    ensures reading { IfOk result (λ r. r ≡ reading bytes.now) }
    ensures relation { IfOk result (λ r. Reads bytes.now r) }
    ensures countable { IfOk result (λ r. IsCountable r) }
    ensures too_long { longest < length bytes.now → result ≡ Ok Reading.TooLong }
{
    read_by_relation(alloc, bytes)
}

/// What the bytes read as.
fn read_by_relation(alloc: Global, bytes: &[u8]) -> Result<Reading, NoMemory>
    ensures relation { IfOk result (λ r. Reads bytes.now r) }
    ensures countable { IfOk result (λ r. IsCountable r) }
    ensures too_long { longest < length bytes.now → result ≡ Ok Reading.TooLong }
{
    if is_too_long(bytes) {
        return Ok(Reading::TooLong);
    }
    let object = match object_of(alloc, bytes)? {
        None => return Ok(Reading::Unparsed),
        Some(object) => object,
    };
    match read_transaction(alloc, &object, false) {
        Err(TransactionFault::NoMemory) => Err(AllocError),
        Err(TransactionFault::Malformed) => Ok(Reading::Malformed),
        Ok(transaction) => Ok(Reading::Transaction(transaction)),
    }
}

fn is_too_long(bytes: &[u8]) -> bool
    ensures long { IsTrue result → longest < length bytes.now }
    ensures short { IsFalse result → length bytes.now ≤ longest }
{
    bytes.len() > LONGEST
}

/// The object that bytes are, if they are one.
///
/// # Errors
///
/// Want of memory alone.
pub fn object_of(alloc: Global, bytes: &[u8]) -> Result<Option<Object>, NoMemory>
    ensures found { IfOk result (λ found. option_map items found ≡ fields_of bytes.now) }
    ensures some { IfOk result (λ found. IfSome found (λ object. IsObject (items object) bytes.now)) }
    ensures same { IfOk result (λ found. IfSome found (λ object. object.bytes ≡ bytes.now)) }
    ensures none { IfOk result (λ found. IfNone found (HasFields bytes.now → ⊥)) }
{
    one_reading();
    match read_object(alloc, bytes) {
        Ok(object) => Ok(Some(object)),
        Err(fault) => match fault {
            ObjectFault::NoMemory => Err(AllocError),
            _ => Ok(None),
        },
    }
}
