// Counts the rows of a cleared book, without writing them.
ghost use Rattle.std.specs.Prelude.{◌≡◌, ◌+◌, ◌≤◌, length, sum_by};
ghost use Rattle.clearing.specs.Adding.{Plain};
ghost use Rattle.clearing.specs.Counting.{sides, range_length, added_length, AllPlain, RowsCount};
ghost use Rattle.clearing.specs.Views.{Told};

use crate::fixed::FIXED;
use books::limits::MOST_ROWS;
use rules::row::{Range, Row};

// Whether the complement of a row can be written down, where there are d definitions.
fn is_plain(row: Row, d: usize) -> bool
    ensures { Told result (Plain d row) }
{
    match row {
        Row::Length(range) | Row::Members(range) | Row::Count(_, range) => range.is_ended(),
        Row::Variable(v) => usize::from(v) < d,
        _ => true,
    }
}

// Whether there are not too many rows, and the complement of each can be written down.
fn are_plain(rows: &[Row], d: usize) -> bool
    ensures { Told result (AllPlain d rows.now) }
{
    rows.len() <= MOST_ROWS && rows.iter().all(|row| is_plain(*row, d))
}

// The count of rows that a row adds which leaves out values below, or above.
fn sides_count(low: bool, high: bool) -> usize
    ensures { result ≡ sides low high }
{
    match (low, high) {
        (false, false) => 1,
        (true, true) => 5,
        _ => 3,
    }
}

// The count of rows that a row on counts adds.
fn range_count(range: Range) -> usize
    ensures { result ≡ range_length range }
{
    sides_count(range.lower > 0, range.upper.is_some())
}

// The count of rows that a row adds.
fn added_count(row: Row) -> usize
    ensures { result ≡ added_length row }
{
    match row {
        Row::True | Row::False | Row::Not(_) => 0,
        Row::OfType(_) => 4,
        Row::BooleanIs(_)
        | Row::Pattern(_)
        | Row::NotPattern(_)
        | Row::Multiple(_)
        | Row::NotMultiple(_)
        | Row::EveryMember(_, _)
        | Row::SomeMember(_, _)
        | Row::EveryElement(_)
        | Row::SomeElement(_) => 3,
        Row::Length(range) | Row::Members(range) | Row::Count(_, range) => range_count(range),
        Row::Between(bounds) | Row::StrictlyBetween(bounds) => {
            sides_count(bounds.lower.is_some(), bounds.upper.is_some())
        }
        Row::And(_, _) | Row::Or(_, _) | Row::Variable(_) => 2,
    }
}

// The count of the cleared rows: the fixed ones, and those that each row adds.
fn count_all(rows: &[Row]) -> usize
    requires { length rows.now ≤ 2048 }
    ensures { result ≡ 8 + sum_by added_length rows.now }
{
    FIXED.len() + rows.iter().map(|row| added_count(*row)).sum::<usize>()
}

// The count of the cleared rows, or nothing where some row can't be cleared. There are d definitions.
pub(crate) fn cleared_count(rows: &[Row], d: usize) -> Option<usize>
    ensures { RowsCount d rows.now result }
{
    are_plain(rows, d).then(|| count_all(rows))
}
