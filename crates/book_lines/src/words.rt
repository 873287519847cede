// The words of a row: its operator, a type, a range.
ghost use Rattle.std.specs.Prelude.{◌≡◌, Some};
ghost use Rattle.book_lines.specs.Lines.{type_word, operator_word, range_text};

use rules::row::{Range, Row, ValueType};
use std::fmt;

// The name of a type. A function, and no `Display`, here and below: the types are of another crate.
pub(crate) fn type_word(of: ValueType) -> &'static str
    ensures { result.now ≡ type_word of }
{
    match of {
        ValueType::Null => "null",
        ValueType::Boolean => "boolean",
        ValueType::Number => "number",
        ValueType::Text => "text",
        ValueType::List => "list",
        ValueType::Object => "object",
    }
}

// The name of a row's operator.
pub(crate) fn operator_word(row: Row) -> &'static str
    ensures { result.now ≡ operator_word row }
{
    match row {
        Row::True => "true",
        Row::False => "false",
        Row::OfType(_) => "type",
        Row::BooleanIs(_) => "boolean-is",
        Row::Pattern(_) => "pattern",
        Row::NotPattern(_) => "not-pattern",
        Row::Length(_) => "length",
        Row::Between(_) => "between",
        Row::StrictlyBetween(_) => "strictly-between",
        Row::Multiple(_) => "multiple",
        Row::NotMultiple(_) => "not-multiple",
        Row::EveryMember(_, _) => "every-member",
        Row::SomeMember(_, _) => "some-member",
        Row::Members(_) => "members",
        Row::EveryElement(_) => "every-element",
        Row::SomeElement(_) => "some-element",
        Row::Count(_, _) => "count",
        Row::And(_, _) => "and",
        Row::Or(_, _) => "or",
        Row::Not(_) => "not",
        Row::Variable(_) => "variable",
    }
}

// A range of counts, as it is printed: `1 to 8`, or `from 1`.
#[derive(Clone, Copy)]
pub(crate) struct Ends(pub Range);

impl fmt::Display for Ends {
    ghost output = { λ ends. Some (range_text ends.0) };

    fn fmt<W: fmt::Write>(&self, f: &mut fmt::Formatter<W>) -> fmt::Result {
        let Range { lower, upper } = self.0;
        match upper {
            Some(upper) => write!(f, "{lower} to {upper}"),
            None => write!(f, "from {lower}"),
        }
    }
}
