// What is tested at the end of a book's file.
ghost use Rattle.std.specs.Prelude.{◌≡◌, ◌+◌, ◌*◌, ◌≤◌, length};
ghost use Rattle.books.specs.Drafts.{limits_in};
ghost use Rattle.books.specs.Tests.{variable_test, first_refused};
ghost use Rattle.book_files.specs.Filling.{TestsEnd};

use books::draft::Draft;
use books::fault::BookFault;
use books::limits::Limits;
use books::parts::test_variable;
use books::sealing::test_book;
use kinds::number::Number;
use rules::row::Row;

// How many bytes the field of a row has, and that of a definition.
const ROW_FIELD: usize = 13;

const DEFINITION_FIELD: usize = 5;

// Tests the variables among rows whose fields begin at this place.
// Not by a public form of `test_each` of books: that one asks that the test may be called, and no public call asks anything.
fn test_variables_from(rows: &[Row], definitions: usize, place: usize) -> Result<(), BookFault>
    requires { place + 13 * length rows.now ≤ 65535 }
    ensures { result ≡ first_refused (λ i row. variable_test definitions (place + 13 * i) row) 0 rows.now }
{
    for (r, row) in rows.iter().enumerate() {
        test_variable(*row, definitions, place + ROW_FIELD * r)?;
    }
    Ok(())
}

// Tests a book whose file of this size is read. Its rows and definitions are the last fields, so their places follow from the size.
pub(crate) fn test_end<K: Number>(
    size: usize,
    draft: Draft<'_>,
    limits: Limits<'_, K>,
) -> Result<(), BookFault>
    requires { (size ≤ 65535) × (13 * length draft.rows.now + 5 * length draft.definitions.now ≤ size) }
    ensures { TestsEnd (limits_in K.Number.kind limits.entry) size draft.entry.rows.now draft.entry.definitions.now result }
{
    if draft.definitions.is_empty() {
        return Err(BookFault::NoDefinition(size));
    }
    let place = size - ROW_FIELD * draft.rows.len() - DEFINITION_FIELD * draft.definitions.len();
    test_variables_from(draft.rows, draft.definitions.len(), place)?;
    test_book(draft, limits)
}
