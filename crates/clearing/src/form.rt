// Tells which sealed books are cleared ones.
ghost use Rattle.std.specs.Prelude.{◌≡◌, ℕ, ◌%◌, []};
ghost use Rattle.rules.specs.declared.row.Row.TheVariants.{Not};
ghost use Rattle.rules.specs.Book.{WithoutNot, Cleared};
ghost use Rattle.books.specs.Guard.{book_of};
ghost use Rattle.clearing.specs.Views.{viewed, view_limits, ClearForm, Told};

use books::book::Book;
use rules::row::Row;

// Whether a row is a `not`.
fn is_not(row: Row) -> bool
    ensures { Told result ((o : ℕ) × (row ≡ Not o)) }
{
    matches!(row, Row::Not(_))
}

// Whether no row is a `not`.
fn without_not(rows: &[Row]) -> bool
    ensures { Told result (WithoutNot (book_of rows.now [])) }
{
    rows.iter().all(|row| !is_not(*row))
}

// Whether a count is even.
fn is_even(count: usize) -> bool
    ensures { Told result (count % 2 ≡ 0) }
{
    count % 2 == 0
}

// Whether a sealed book has no `not` and an even count of definitions.
pub fn is_cleared(book: &Book<'_>) -> bool
    ensures form { Told result (ClearForm (viewed book.now)) }
    ensures cleared { Told result (Cleared (view_limits book.now) (viewed book.now)) }
{
    without_not(book.rows()) && is_even(book.definitions().len())
}
