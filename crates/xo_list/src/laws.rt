ghost use Rattle.xo_list.specs.Laws.{OneReading, OneField, OneSpelling, OneArray, MoreRoom, Edits};

use xo_fields::{
    one_amount, one_amount_read, one_header, one_header_read, one_length, one_length_read,
};

/// Bytes are read in one way.
pub fn one_reading()
    ensures law { OneReading }
{
    one_header();
    one_header_read();
    one_length();
    one_length_read();
    one_amount();
    one_amount_read();
}

/// One field stands at the front of bytes.
pub fn one_field()
    ensures law { OneField }
{
    one_header();
    one_header_read();
    one_length();
    one_length_read();
    one_amount();
    one_amount_read();
}

/// One list of fields has one spelling.
pub fn one_spelling()
    ensures law { OneSpelling }
{}

/// One list of elements has one spelling.
pub fn one_array()
    ensures law { OneArray }
{}

/// Where more may be open, what is a value stays one.
pub fn more_room()
    ensures law { MoreRoom }
{}

/// The list without a field, and with one put in its place, is an object's again.
pub fn edits()
    ensures law { Edits }
{}
