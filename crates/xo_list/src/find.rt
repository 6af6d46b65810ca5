ghost use Rattle.std.specs.Prelude.{◌≡◌, ◌<◌, ◌≤◌, ◌^◌, List, length};
ghost use Rattle.xo_list.specs.Item.{Item, lookup};
ghost use Rattle.xo_list.specs.Value.{HasFields, HasElements, IsObject, IsArray};
ghost use Rattle.xo_list.specs.Span.{places, place_of, FindsValue, FindsElement};
ghost use Rattle.xo_list.specs.Located.{Locates, Passes};

use crate::check::DEPTH;
use crate::laws::one_field;
use crate::skip::{skip_value, start_of};
use crate::span::Span;
use xo_fields::{FieldId, one_header};

/// Where a field stands among an object's fields, or would stand.
#[derive(Clone, Copy, Debug, PartialEq, Eq)]
pub enum Located {
    /// From its header to its end, and its value.
    Found { from: usize, value: Span, to: usize },
    /// The place before the first field above it.
    Absent { at: usize },
}

/// How many elements were passed over, and where the next begins.
#[derive(Clone, Copy, Debug, PartialEq, Eq)]
pub struct Passed {
    pub count: u32,
    pub at: usize,
}

/// The span of a field's value in an object's bytes, without header, length and end mark.
///
/// `None` where the object has no such field.
pub fn find_field(bytes: &[u8], field: FieldId) -> Option<Span>
    requires { HasFields bytes.now }
    ensures found { (items : List Item) → IsObject items bytes.now → FindsValue bytes.now (lookup field items) result }
    ensures place { (items : List Item) → IsObject items bytes.now → result ≡ place_of field (places 0 items) }
{
    match locate(bytes, field) {
        Located::Found {
            from: _,
            value,
            to: _,
        } => Some(value),
        Located::Absent { at: _ } => None,
    }
}

/// Where a field stands in an object's bytes, or would stand.
pub fn locate(bytes: &[u8], field: FieldId) -> Located
    requires { HasFields bytes.now }
    ensures located { (items : List Item) → IsObject items bytes.now → Locates bytes.now field items result }
{
    one_field();
    one_header();
    let wanted = field.number();
    let mut at = 0;
    let mut last = 0;
    'fields: while at < bytes.len() {
        match start_of(bytes, at, false, last) {
            Err(_) => return Located::Absent { at },
            Ok(start) => {
                let number = start.field.number();
                if wanted < number {
                    return Located::Absent { at };
                }
                match skip_value(bytes, start.from, start.form, DEPTH) {
                    Err(_) => return Located::Absent { at },
                    Ok(value) => {
                        if wanted == number {
                            let span = Span {
                                from: value.from,
                                to: value.to,
                            };
                            return Located::Found {
                                from: at,
                                value: span,
                                to: value.next,
                            };
                        }
                        at = value.next;
                        last = number;
                    }
                }
            }
        }
    }
    Located::Absent { at }
}

/// How many elements an array's bytes have.
pub fn count_elements(bytes: &[u8]) -> u32
    requires array { HasElements bytes.now }
    requires short { length bytes.now < 2 ^ 32 }
    ensures count { (elements : List Item) → IsArray elements bytes.now → result ≡ length elements }
{
    skip_elements(bytes, u32::MAX).count
}

/// The span of an element in an array's bytes, with its header and end mark.
///
/// `None` where the array has no such element.
pub fn element(bytes: &[u8], index: u32) -> Option<Span>
    requires { HasElements bytes.now }
    ensures found { (elements : List Item) → IsArray elements bytes.now → FindsElement bytes.now elements index result }
{
    one_field();
    let passed = skip_elements(bytes, index);
    if passed.count < index {
        return None;
    }
    if passed.at == bytes.len() {
        return None;
    }
    match start_of(bytes, passed.at, true, 0) {
        Err(_) => None,
        Ok(start) => match skip_value(bytes, start.from, start.form, DEPTH - 1) {
            Err(_) => None,
            Ok(value) => Some(Span {
                from: passed.at,
                to: value.next,
            }),
        },
    }
}

/// Passes over so many elements of an array's bytes, or all where there are fewer.
pub fn skip_elements(bytes: &[u8], count: u32) -> Passed
    requires { HasElements bytes.now }
    ensures passed { (elements : List Item) → IsArray elements bytes.now → Passes bytes.now elements count result }
{
    one_field();
    let mut at = 0;
    let mut passed = 0;
    'elements: while passed < count {
        if at == bytes.len() {
            return Passed { count: passed, at };
        }
        match start_of(bytes, at, true, 0) {
            Err(_) => return Passed { count: passed, at },
            Ok(start) => match skip_value(bytes, start.from, start.form, DEPTH - 1) {
                Err(_) => return Passed { count: passed, at },
                Ok(value) => {
                    at = value.next;
                    passed += 1;
                }
            },
        }
    }
    Passed { count: passed, at }
}
