// Makes views of cleared books, and looks at their parts.
ghost use Rattle.std.specs.Prelude.{◌≡◌};
ghost use Rattle.rules.specs.Book.{Cleared as ClearedBook};
ghost use Rattle.clearing.specs.Views.{viewed, view_limits, ClearForm};
ghost use Rattle.clearing.specs.Cleared.{Nothing};

use crate::cleared::Cleared;
use crate::form::is_cleared;
use books::book::Book;
use books::draft::Draft;
use books::limits::Limits;
use kinds::whole::Whole;
use rules::row::Row;

impl<'a> Cleared<'a> {
    // The cleared book that accepts nothing: a definition whose body is a row that is false, and its complement.
    fn accepting_nothing() -> Cleared<'a>
        ensures nothing { Nothing result }
        ensures cleared { ClearedBook (view_limits result.book) (viewed result.book) }
    {
        let draft = Draft {
            rows: &[Row::False, Row::True],
            definitions: &[0, 1],
        };
        // it has no numbers, so that their kind is all one
        let limits = Limits::<Whole> {
            numbers: &[],
            patterns: 0,
        };
        Cleared {
            book: Book::seal(draft, limits),
        }
    }

    // The same book, where it is a cleared one; of any other it makes the cleared book that accepts nothing.
    pub fn of(book: Book<'a>) -> Cleared<'a>
        ensures same { ClearForm (viewed book.entry) → result.book ≡ book.entry }
        ensures nothing { (ClearForm (viewed book.entry) → ⊥) → Nothing result }
        ensures cleared { ClearedBook (view_limits result.book) (viewed result.book) }
    {
        if !is_cleared(&book) {
            return Cleared::accepting_nothing();
        }
        Cleared { book }
    }

    // The rows.
    pub fn rows(&self) -> &'a [Row]
        ensures { result.now ≡ self.now.book.draft.rows.now }
    {
        self.book.rows()
    }

    // The body rows of the definitions, and then of their complements.
    pub fn definitions(&self) -> &'a [u16]
        ensures { result.now ≡ self.now.book.draft.definitions.now }
    {
        self.book.definitions()
    }

    // How many numbers the book has.
    pub fn number_count(&self) -> usize
        ensures { result ≡ self.now.book.numbers }
    {
        self.book.number_count()
    }

    // How many patterns the dialect has that the book is sealed for.
    pub fn pattern_count(&self) -> usize
        ensures { result ≡ self.now.book.patterns }
    {
        self.book.pattern_count()
    }
}
