// Tests whole books.
ghost use Rattle.std.specs.Prelude.{◌≡◌, not, length, ◌==◌};
ghost use Rattle.books.specs.Drafts.{drafted, limits_in};
ghost use Rattle.books.specs.Sealing.{plain_test, ComesTo, Only, Seals};
ghost use Rattle.books.specs.Tests.{ask};
ghost use Rattle.books.specs.declared.fault.BookFault.TheVariants.{NoDefinition};

use crate::draft::Draft;
use crate::fault::BookFault;
use crate::joined::JoinedDraft;
use crate::limits::{Limits, MOST_NUMBERS};
use crate::parts::{ensure, test_counted_row, test_definition, test_each, test_variable};
use kinds::number::Number;

// Tests that there is a definition.
fn test_defined(draft: Draft<'_>) -> Result<(), BookFault>
    ensures { result ≡ ask (not (length draft.entry.definitions.now == 0)) (NoDefinition 0) }
{
    ensure(!draft.definitions.is_empty(), BookFault::NoDefinition(0))
}

// Tests the numbers, the rows and the definitions of a book, and that what they name is there.
fn test_parts<K: Number>(draft: Draft<'_>, limits: Limits<'_, K>) -> Result<(), BookFault>
    ensures { result ≡ plain_test (limits_in K.Number.kind limits.entry) (drafted draft.entry) }
{
    ensure(
        limits.numbers.len() <= MOST_NUMBERS,
        BookFault::TooMany(MOST_NUMBERS),
    )?;
    test_each(draft.rows, |at, row| test_counted_row(row, at, limits))?;
    test_each(
        draft.definitions,
        |k, body| test_definition(body, k, draft.rows.len()),
    )?;
    test_defined(draft)?;
    test_each(
        draft.rows,
        |at, row| test_variable(row, draft.definitions.len(), at),
    )
}

// Tests whether rows and definitions in memory are a book that can be sealed, with these numbers and for this count of patterns.
pub fn test_book<K: Number>(draft: Draft<'_>, limits: Limits<'_, K>) -> Result<(), BookFault>
    ensures comes { ComesTo (limits_in K.Number.kind limits.entry) (drafted draft.entry) result }
    ensures only { Only (limits_in K.Number.kind limits.entry) (drafted draft.entry) result }
    ensures seals { Seals (limits_in K.Number.kind limits.entry) (drafted draft.entry) result }
{
    test_parts(draft, limits)?;
    let joined = JoinedDraft { draft };
    match joined.lowest_cycle() {
        Some(row) => Err(BookFault::Unguarded(row)),
        None => Ok(()),
    }
}
