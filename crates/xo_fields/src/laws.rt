ghost use Rattle.xo_fields.specs.Laws.{OneHeader, OneLength, OneAmount, OneHeaderRead, OneLengthRead, OneAmountRead};

/// No header is the beginning of another.
pub fn one_header()
    ensures law { OneHeader }
{}

/// No length is the beginning of another.
pub fn one_length()
    ensures law { OneLength }
{}

/// No amount is the beginning of another.
pub fn one_amount()
    ensures law { OneAmount }
{}

/// Bytes have one answer of `read_header`.
pub fn one_header_read()
    ensures law { OneHeaderRead }
{
    one_header();
}

/// Bytes have one answer of `read_length`.
pub fn one_length_read()
    ensures law { OneLengthRead }
{
    one_length();
}

/// Bytes have one answer of `read_amount`.
pub fn one_amount_read()
    ensures law { OneAmountRead }
{
    one_amount();
}
