//! Values that hold no fields.
ghost use Rattle.std.specs.Prelude.{ℕ, ◌<◌, ◌≤◌};
ghost use Rattle.serde_json.specs.View.{view};
ghost use Rattle.xo_fields.specs.declared.form.Form.TheVariants.{Fixed, Blob, Account};
ghost use Rattle.xo_json.specs.Parts.{ReadsValue, ReadsHex};

use hk_base::hex_to_bytes;
use serde_json::Value;
use std::alloc::Global;
use xo_told::JsonFault;

/// The most bytes of a blob.
const LONGEST: usize = 918_744;
/// How many bytes an account has.
const ACCOUNT_SIZE: usize = 20;
/// How many bytes a number has.
const NUMBER_SIZE: usize = 8;
/// How many bytes a number has at most that shows as one.
const SHOWN_SIZE: usize = 4;

/// The bytes of a number or a hash of that size.
pub(crate) fn read_fixed(alloc: Global, size: usize, value: &Value) -> Result<Vec<u8>, JsonFault>
    ensures value { (room : ℕ) → ReadsValue room (Fixed size) (view value.now) result }
{
    if size <= SHOWN_SIZE {
        read_number(alloc, size, value)
    } else {
        read_sized(alloc, size, value)
    }
}

/// The bytes of a number of that size.
fn read_number(alloc: Global, size: usize, value: &Value) -> Result<Vec<u8>, JsonFault>
    requires { size ≤ 4 }
    ensures value { (room : ℕ) → ReadsValue room (Fixed size) (view value.now) result }
{
    let Some(number) = value.as_u64() else {
        return Err(JsonFault::BadValue);
    };
    let bytes = number.to_be_bytes();
    let zeros = [0; NUMBER_SIZE];
    let start = NUMBER_SIZE - size;
    if bytes[..start] != zeros[..start] {
        return Err(JsonFault::BadValue);
    }
    match Vec::from_slice(alloc, &bytes[start..]) {
        Err(_) => Err(JsonFault::NoMemory),
        Ok(bytes) => Ok(bytes),
    }
}

/// So many bytes in hex.
fn read_sized(alloc: Global, size: usize, value: &Value) -> Result<Vec<u8>, JsonFault>
    requires { 4 < size }
    ensures value { (room : ℕ) → ReadsValue room (Fixed size) (view value.now) result }
{
    match read_hex(alloc, value) {
        Err(fault) => Err(fault),
        Ok(bytes) => {
            if bytes.len() != size {
                return Err(JsonFault::BadValue);
            }
            Ok(bytes)
        }
    }
}

/// The bytes of a blob.
pub(crate) fn read_blob(alloc: Global, value: &Value) -> Result<Vec<u8>, JsonFault>
    ensures value { (room : ℕ) → ReadsValue room Blob (view value.now) result }
{
    match read_hex(alloc, value) {
        Err(fault) => Err(fault),
        Ok(bytes) => {
            if bytes.len() > LONGEST {
                return Err(JsonFault::BadValue);
            }
            Ok(bytes)
        }
    }
}

/// The bytes of an account.
pub(crate) fn read_account(alloc: Global, value: &Value) -> Result<Vec<u8>, JsonFault>
    ensures value { (room : ℕ) → ReadsValue room Account (view value.now) result }
{
    match read_hex(alloc, value) {
        Err(fault) => Err(fault),
        Ok(bytes) => {
            if bytes.len() != ACCOUNT_SIZE {
                return Err(JsonFault::BadValue);
            }
            Ok(bytes)
        }
    }
}

/// The bytes that a text of hex digits of either case stands for.
pub(crate) fn read_hex(alloc: Global, value: &Value) -> Result<Vec<u8>, JsonFault>
    ensures hex { ReadsHex (view value.now) result }
{
    let Some(text) = value.as_str() else {
        return Err(JsonFault::BadValue);
    };
    match hex_to_bytes(alloc, text.as_bytes()) {
        Err(_) => Err(JsonFault::NoMemory),
        Ok(found) => match found {
            None => Err(JsonFault::BadValue),
            Some(bytes) => Ok(bytes),
        },
    }
}
