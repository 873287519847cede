// What a row adds to the cleared book: its positive row, and the rows of its complement.
ghost use Rattle.std.specs.Prelude.{◌≡◌, ◌≤◌};
ghost use Rattle.rules.specs.Clear.{adds as adds_rows, look_up};
ghost use Rattle.clearing.specs.Adding.{Plain, listed};

use crate::added::{Added, NewRows};
use crate::complements::FreeRow;
use crate::fixed::{FALSE_ROW, TRUE_ROW};
use rules::place::Place;
use rules::row::{Row, ValueType};

// Where row r stands.
pub(crate) fn place_of(places: &[Place], r: u16) -> Place
    ensures { result ≡ look_up places.now r }
{
    places.get(usize::from(r)).copied().unwrap_or_default()
}

// What a row adds from the free row s on, by the places of the rows before it. There are d definitions.
pub(crate) fn adds(places: &[Place], d: u16, s: FreeRow, row: Row) -> Added
    requires few_definitions { d ≤ 64 }
    requires plain { Plain d row }
    ensures { listed result ≡ adds_rows (look_up places.now) d s.number row }
{
    let at = |r| place_of(places, r);
    match row {
        Row::True => Added::new(NewRows::None, TRUE_ROW, FALSE_ROW),
        Row::False => Added::new(NewRows::None, FALSE_ROW, TRUE_ROW),
        Row::OfType(t) => s.of_type(t),
        Row::BooleanIs(b) => s.turn(ValueType::Boolean, row, Row::BooleanIs(!b)),
        Row::Pattern(p) => s.turn(ValueType::Text, row, Row::NotPattern(p)),
        Row::NotPattern(p) => s.turn(ValueType::Text, row, Row::Pattern(p)),
        Row::Length(range) => s.around_range(ValueType::Text, Row::Length, range),
        Row::Between(bounds) => s.around_bounds(Row::Between, Row::StrictlyBetween, bounds),
        Row::StrictlyBetween(bounds) => s.around_bounds(Row::StrictlyBetween, Row::Between, bounds),
        Row::Multiple(q) => s.turn(ValueType::Number, row, Row::NotMultiple(q)),
        Row::NotMultiple(q) => s.turn(ValueType::Number, row, Row::Multiple(q)),
        Row::EveryMember(p, o) => s.turn_on(
            ValueType::Object,
            at(o),
            |o| Row::EveryMember(p, o),
            |o| Row::SomeMember(p, o),
        ),
        Row::SomeMember(p, o) => s.turn_on(
            ValueType::Object,
            at(o),
            |o| Row::SomeMember(p, o),
            |o| Row::EveryMember(p, o),
        ),
        Row::Members(range) => s.around_range(ValueType::Object, Row::Members, range),
        Row::EveryElement(o) => {
            s.turn_on(ValueType::List, at(o), Row::EveryElement, Row::SomeElement)
        }
        Row::SomeElement(o) => {
            s.turn_on(ValueType::List, at(o), Row::SomeElement, Row::EveryElement)
        }
        Row::Count(o, range) => {
            let o = at(o).positive;
            s.around_range(ValueType::List, |range| Row::Count(o, range), range)
        }
        Row::And(a, b) => s.pair_on(at(a), at(b), Row::And, Row::Or),
        Row::Or(a, b) => s.pair_on(at(a), at(b), Row::Or, Row::And),
        Row::Not(o) => {
            let Place { positive, negative } = at(o);
            Added::new(NewRows::None, negative, positive)
        }
        Row::Variable(v) => s.pair(row, Row::Variable(d + v)),
    }
}
