// Reads a row from its ten bytes.
ghost use Rattle.std.specs.Prelude.{◌≡◌};
ghost use Rattle.std.specs.List.{slice_get};
ghost use Rattle.rows.specs.Rows.{ReadsRow, row_of, row_from, booleans, unended, alone as alone_from, first_alone, second_alone, range_from, range_alone, bounds_alone};

use crate::fields::{Ends, Fields, fields_of};
use rules::row::{Bounds, Range, Row, ValueType};

// The boolean of this number. A table, since the library turns a boolean into a number and not back.
fn boolean_of(number: u16) -> Option<bool>
    ensures { result ≡ slice_get booleans number }
{
    match number {
        0 => Some(false),
        1 => Some(true),
        _ => None,
    }
}

impl Ends {
    // Whether both are absent.
    fn are_absent(self) -> bool
        ensures { result ≡ unended self }
    {
        self.lower.is_none() && self.upper.is_none()
    }

    // The range of these ends: the lower is present, and one more than the upper is still an end.
    fn range(self) -> Option<Range>
        ensures { result ≡ range_from self }
    {
        let range = Range {
            lower: self.lower?,
            upper: self.upper,
        };
        range.is_ended().then_some(range)
    }
}

impl Fields {
    // This row, if no operand and no end is used.
    fn alone(self, row: Row) -> Option<Row>
        ensures { result ≡ alone_from row self }
    {
        (self.first == 0 && self.second == 0 && self.ends.are_absent()).then_some(row)
    }

    // The first operand, if nothing else is used. This one and the next are a line each; one function over the field would be no shorter.
    fn first_alone(self) -> Option<u16>
        ensures { result ≡ first_alone self }
    {
        (self.second == 0 && self.ends.are_absent()).then_some(self.first)
    }

    // The second operand, if nothing else is used.
    fn second_alone(self) -> Option<u16>
        ensures { result ≡ second_alone self }
    {
        (self.first == 0 && self.ends.are_absent()).then_some(self.second)
    }

    // The range, if no operand is used.
    fn range_alone(self) -> Option<Range>
        ensures { result ≡ range_alone self }
    {
        (self.first == 0 && self.second == 0)
            .then_some(self.ends)?
            .range()
    }

    // The bounds, if no operand is used.
    fn bounds_alone(self) -> Option<Bounds>
        ensures { result ≡ bounds_alone self }
    {
        let Ends { lower, upper } = self.ends;
        (self.first == 0 && self.second == 0).then_some(Bounds { lower, upper })
    }

    // The row that these fields are. An enum of the operators would be two tables of its own beside this one and that of writing.
    fn row(self) -> Option<Row>
        ensures { result ≡ row_from self }
    {
        match self.operator {
            1 => self.alone(Row::True),
            2 => self.alone(Row::False),
            3 => Some(Row::OfType(ValueType::try_from(self.first_alone()?).ok()?)),
            4 => Some(Row::BooleanIs(boolean_of(self.first_alone()?)?)),
            5 => Some(Row::Pattern(self.first_alone()?)),
            6 => Some(Row::NotPattern(self.first_alone()?)),
            7 => Some(Row::Length(self.range_alone()?)),
            8 => Some(Row::Between(self.bounds_alone()?)),
            9 => Some(Row::StrictlyBetween(self.bounds_alone()?)),
            10 => Some(Row::Multiple(self.first_alone()?)),
            11 => Some(Row::NotMultiple(self.first_alone()?)),
            12 if self.ends.are_absent() => Some(Row::EveryMember(self.first, self.second)),
            13 if self.ends.are_absent() => Some(Row::SomeMember(self.first, self.second)),
            14 => Some(Row::Members(self.range_alone()?)),
            15 => Some(Row::EveryElement(self.second_alone()?)),
            16 => Some(Row::SomeElement(self.second_alone()?)),
            17 if self.first == 0 => Some(Row::Count(self.second, self.ends.range()?)),
            18 if self.ends.are_absent() => Some(Row::And(self.first, self.second)),
            19 if self.ends.are_absent() => Some(Row::Or(self.first, self.second)),
            20 => Some(Row::Not(self.second_alone()?)),
            21 => Some(Row::Variable(self.first_alone()?)),
            _ => None,
        }
    }
}

// The row whose ten bytes these are, if there is one.
pub fn read_row(bytes: &[u8]) -> Option<Row>
    ensures is { result ≡ row_of bytes.now }
    ensures reads { ReadsRow bytes.now result }
{
    fields_of(bytes)?.row()
}
