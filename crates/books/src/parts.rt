// Tests the parts of a book one by one: its rows, its definitions and its variables.
ghost use Rattle.std.specs.Prelude.{◌≡◌, length};
ghost use Rattle.books.specs.Drafts.{limits_in};
ghost use Rattle.rules.specs.Book.{number_at};
ghost use Rattle.books.specs.Tests.{is_there, row_fits, row_above, row_test, variable_test, definition_test, counted_row, ask, StopsAtFirst};

use crate::fault::BookFault;
use crate::limits::{Limits, MOST_DEFINITIONS, MOST_ROWS};
use kinds::number::Number;
use rules::row::Row;

// Whether a number of the book is there, or none is asked for.
fn is_there(index: Option<u16>, numbers: usize) -> bool
    ensures { result ≡ is_there numbers index }
{
    index.is_none_or(|i| usize::from(i) < numbers)
}

// Whether a row may have these operands, as row number `at`.
fn is_allowed<K>(row: Row, at: usize, limits: Limits<'_, K>) -> bool
    ensures { result ≡ row_fits limits.entry.patterns (length limits.entry.numbers.now) at row }
{
    match row {
        Row::True | Row::False | Row::OfType(_) | Row::BooleanIs(_) | Row::Variable(_) => true,
        Row::Pattern(p) | Row::NotPattern(p) => usize::from(p) < limits.patterns,
        Row::Length(range) | Row::Members(range) => range.is_ended(),
        Row::Between(bounds) | Row::StrictlyBetween(bounds) => {
            is_there(bounds.lower, limits.numbers.len())
                && is_there(bounds.upper, limits.numbers.len())
        }
        Row::Multiple(q) | Row::NotMultiple(q) => usize::from(q) < limits.numbers.len(),
        Row::EveryMember(p, o) | Row::SomeMember(p, o) => {
            usize::from(p) < limits.patterns && usize::from(o) < at
        }
        Row::EveryElement(o) | Row::SomeElement(o) | Row::Not(o) => usize::from(o) < at,
        Row::Count(o, range) => usize::from(o) < at && range.is_ended(),
        Row::And(a, b) | Row::Or(a, b) => usize::from(a) < at && usize::from(b) < at,
    }
}

// The number at a place of a book's list; past the end, zero.
pub fn number_at<K: Number>(numbers: &[K], i: usize) -> K
    ensures { result ≡ number_at K.Number.kind numbers.now i }
{
    numbers.get(i).copied().unwrap_or(K::zero())
}

// Whether the number that a row takes multiples of is above zero, if it takes any.
fn is_above_zero<K: Number>(row: Row, limits: Limits<'_, K>) -> bool
    ensures { result ≡ row_above (limits_in K.Number.kind limits.entry) row }
{
    let (Row::Multiple(q) | Row::NotMultiple(q)) = row else {
        return true;
    };
    number_at(limits.numbers, usize::from(q)).is_positive()
}

// Passes where this holds, and gives the fault where it doesn't.
pub(crate) fn ensure(holds: bool, fault: BookFault) -> Result<(), BookFault>
    ensures { result ≡ ask holds fault }
{
    holds.then_some(()).ok_or(fault)
}

// Tests row number `at`, which stands at this place. Row and number are no struct: who tests rows one after another has them apart.
pub fn test_row<K: Number>(
    row: Row,
    at: usize,
    place: usize,
    limits: Limits<'_, K>,
) -> Result<(), BookFault>
    ensures { result ≡ row_test (limits_in K.Number.kind limits.entry) at place row }
{
    ensure(is_allowed(row, at, limits), BookFault::NotAllowed(place))?;
    ensure(is_above_zero(row, limits), BookFault::NotAboveZero(place))
}

// Tests that the definition that a row calls is there, if it calls any.
pub fn test_variable(row: Row, definitions: usize, place: usize) -> Result<(), BookFault>
    ensures { result ≡ variable_test definitions place row }
{
    match row {
        Row::Variable(v) => ensure(usize::from(v) < definitions, BookFault::Missing(place)),
        _ => Ok(()),
    }
}

// Tests row number `at` of rows in memory.
pub(crate) fn test_counted_row<K: Number>(
    row: Row,
    at: usize,
    limits: Limits<'_, K>,
) -> Result<(), BookFault>
    ensures { result ≡ counted_row (limits_in K.Number.kind limits.entry) at row }
{
    ensure(at < MOST_ROWS, BookFault::TooMany(at))?;
    test_row(row, at, at, limits)
}

// Tests definition number k of definitions in memory: its body row is there.
pub(crate) fn test_definition(body: u16, k: usize, rows: usize) -> Result<(), BookFault>
    ensures { result ≡ definition_test rows k body }
{
    ensure(k < MOST_DEFINITIONS, BookFault::TooMany(k))?;
    ensure(usize::from(body) < rows, BookFault::Missing(k))
}

// Tests items by number, up to the first that is refused.
pub(crate) fn test_each<T: Copy, F: Fn(usize, T) -> Result<(), BookFault>>(
    items: &[T],
    test: F,
) -> Result<(), BookFault>
    requires { F.IsAlwaysCallable test }
    ensures { StopsAtFirst (F.post test) items.now result }
{
    for (i, item) in items.iter().enumerate() {
        test(i, *item)?;
    }
    Ok(())
}
