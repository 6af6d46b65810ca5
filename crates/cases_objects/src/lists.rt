//! Lists of fields: reading, finding and building.
use crate::field;
use cases::{CaseFault, Words, hex};
use xo_list::{
    ObjectBuilder, check_object, count_elements, element, find_field, locate, read_elements,
    read_object, skip_elements,
};

/// What bytes read as, or what is built.
pub fn read(call: &str, words: &mut Words<'_>) -> Result<String, CaseFault> {
    if call == "build" {
        return built(words);
    }
    let bytes = words.bytes()?;
    match call {
        "check" => Ok(format!(in words.alloc; "{:?}", check_object(&bytes))?),
        "elements" => Ok(format!(in words.alloc; "{:?}", read_elements(words.alloc, &bytes))?),
        _ => match read_object(words.alloc, &bytes) {
            Ok(object) => Ok(format!(in words.alloc; "{:?}", object.items())?),
            Err(fault) => Ok(format!(in words.alloc; "{fault:?}")?),
        },
    }
}

// The bytes of so many fields that are put, behind the faults of those that aren't.
fn built(words: &mut Words<'_>) -> Result<String, CaseFault> {
    let count: u32 = words.value()?;
    let mut builder = ObjectBuilder::new(words.alloc);
    let mut text = String::new(words.alloc);
    for _ in 0..count {
        let field = field(words)?;
        let value = words.bytes()?;
        if let Err(fault) = builder.put(field, &value) {
            text = format!(in words.alloc; "{text}{fault:?} ")?;
        }
    }
    let object = builder.finish()?;
    Ok(format!(in words.alloc; "{text}{}", hex(words.alloc, object.bytes())?)?)
}

/// Where a field of an object stands.
pub fn found(call: &str, words: &mut Words<'_>) -> Result<String, CaseFault> {
    let bytes = words.bytes()?;
    let field = field(words)?;
    match check_object(&bytes) {
        Err(_) => Err(CaseFault::BadCase),
        Ok(()) => match call {
            "find" => Ok(format!(in words.alloc; "{:?}", find_field(&bytes, field))?),
            _ => Ok(format!(in words.alloc; "{:?}", locate(&bytes, field))?),
        },
    }
}

/// Where an element of an array stands, and how many there are.
pub fn passed(call: &str, words: &mut Words<'_>) -> Result<String, CaseFault> {
    let bytes = words.bytes()?;
    let index = words.value()?;
    match read_elements(words.alloc, &bytes) {
        Err(_) => Err(CaseFault::BadCase),
        Ok(_) => match call {
            "element" => Ok(format!(in words.alloc; "{:?}", element(&bytes, index))?),
            "skip" => Ok(format!(in words.alloc; "{:?}", skip_elements(&bytes, index))?),
            _ if bytes.len() < 4_294_967_296 => {
                Ok(format!(in words.alloc; "{}", count_elements(&bytes))?)
            }
            _ => Err(CaseFault::BadCase),
        },
    }
}
