// A sealed book, as a view of the memory that it stands in.
ghost use Rattle.std.specs.Prelude.{◌≡◌, true, is_ok};
ghost use Rattle.rules.specs.Book.{Guarded};
ghost use Rattle.books.specs.Drafts.{drafted};
ghost use Rattle.books.specs.Sealing.{plain_test, counts};

use crate::draft::Draft;

mod views;

// The rows and the definitions' body rows of a book, and the counts of numbers and patterns that it is sealed for.
// Its numbers are not held here, so that a view is of one type for all number kinds.
#[derive(Drop)]
pub struct Book<'a> {
    draft: Draft<'a>,
    numbers: usize,
    patterns: usize,
    ghost passed: { is_ok (plain_test (counts patterns numbers) (drafted draft)) ≡ true },
    ghost guarded: { Guarded (drafted draft) },
}
