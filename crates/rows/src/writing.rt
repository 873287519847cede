// Writes a row as its ten bytes.
ghost use Rattle.std.specs.Prelude.{◌≡◌, Some};
ghost use Rattle.rows.specs.Fields.{fields as fields_by, present as present_by, no_ends, bytes_of};
ghost use Rattle.rows.specs.Rows.{fields_of, row_bytes, row_of, WellEnded};

use crate::fields::{Ends, Fields};
use rules::row::Row;

// The fields of an operator without ends.
fn plain(operator: u8, first: u16, second: u16) -> Fields
    ensures { result ≡ fields_by operator first second no_ends }
{
    Fields {
        operator,
        first,
        second,
        ends: Ends::default(),
    }
}

// The fields of an operator with ends.
fn ended(operator: u8, second: u16, ends: Ends) -> Fields
    ensures { result ≡ fields_by operator 0 second ends }
{
    Fields {
        operator,
        first: 0,
        second,
        ends,
    }
}

// The fields of a row. The numbers of the operators stand here and in reading alone.
fn row_fields(row: Row) -> Fields
    ensures { result ≡ fields_of row }
{
    match row {
        Row::True => plain(1, 0, 0),
        Row::False => plain(2, 0, 0),
        Row::OfType(of) => plain(3, of.into(), 0),
        Row::BooleanIs(is) => plain(4, is.into(), 0),
        Row::Pattern(p) => plain(5, p, 0),
        Row::NotPattern(p) => plain(6, p, 0),
        Row::Length(range) => ended(7, 0, range.into()),
        Row::Between(bounds) => ended(8, 0, bounds.into()),
        Row::StrictlyBetween(bounds) => ended(9, 0, bounds.into()),
        Row::Multiple(q) => plain(10, q, 0),
        Row::NotMultiple(q) => plain(11, q, 0),
        Row::EveryMember(p, o) => plain(12, p, o),
        Row::SomeMember(p, o) => plain(13, p, o),
        Row::Members(range) => ended(14, 0, range.into()),
        Row::EveryElement(o) => plain(15, 0, o),
        Row::SomeElement(o) => plain(16, 0, o),
        Row::Count(o, range) => ended(17, o, range.into()),
        Row::And(a, b) => plain(18, a, b),
        Row::Or(a, b) => plain(19, a, b),
        Row::Not(o) => plain(20, 0, o),
        Row::Variable(v) => plain(21, v, 0),
    }
}

// The byte that tells which ends are present: bit 0 the lower, bit 1 the upper. A table shows the four bytes; a sum of bits would hide them.
fn present(ends: Ends) -> u8
    ensures { result ≡ present_by ends }
{
    match (ends.lower, ends.upper) {
        (None, None) => 0,
        (Some(_), None) => 1,
        (None, Some(_)) => 2,
        (Some(_), Some(_)) => 3,
    }
}

// The ten bytes of fields, each number with its high byte first; an absent end holds 0.
fn field_bytes(fields: Fields) -> [u8; 10]
    ensures { result ≡ bytes_of fields }
{
    let Fields {
        operator,
        first,
        second,
        ends,
    } = fields;
    let [a, b] = first.to_be_bytes();
    let [c, d] = second.to_be_bytes();
    let [e, f] = ends.lower.unwrap_or(0).to_be_bytes();
    let [g, h] = ends.upper.unwrap_or(0).to_be_bytes();
    [operator, present(ends), a, b, c, d, e, f, g, h]
}

// The ten bytes of a row. A row whose range ends at 65,534 or below is read back from them.
pub fn write_row(row: Row) -> [u8; 10]
    ensures is { result ≡ row_bytes row }
    ensures back { WellEnded row → row_of result ≡ Some row }
{
    field_bytes(row_fields(row))
}
