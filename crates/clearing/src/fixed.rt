// The rows that every cleared book begins with.
use rules::row::{Row, ValueType};

// The types stand in the order of their numbers, so that a type's number is its row.
pub(crate) const FIXED: [Row; 8] = [
    Row::OfType(ValueType::Null),
    Row::OfType(ValueType::Boolean),
    Row::OfType(ValueType::Number),
    Row::OfType(ValueType::Text),
    Row::OfType(ValueType::List),
    Row::OfType(ValueType::Object),
    Row::True,
    Row::False,
];

// Where `true` and `false` stand among them.
pub(crate) const TRUE_ROW: u16 = 6;

pub(crate) const FALSE_ROW: u16 = 7;
