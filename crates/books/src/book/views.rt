// Seals books, and looks at their parts.
ghost use Rattle.std.specs.Prelude.{◌≡◌, length};
ghost use Rattle.rules.specs.Book.{Sealed};
ghost use Rattle.books.specs.Drafts.{drafted, limits_in};
ghost use Rattle.books.specs.Sealing.{counts};
ghost use Rattle.books.specs.Views.{Views, Nothing};

use crate::book::Book;
use crate::draft::Draft;
use crate::limits::Limits;
use crate::sealing::test_book;
use kinds::number::Number;
use rules::row::Row;

// One definition, whose body is a row that is false.
static FALSE_ROW: [Row; 1] = [Row::False];

static FIRST_ROW: [u16; 1] = [0];

impl<'a> Book<'a> {
    // The book that accepts nothing.
    fn accepting_nothing() -> Book<'a>
        ensures { Nothing result }
    {
        Book {
            draft: Draft {
                rows: &FALSE_ROW,
                definitions: &FIRST_ROW,
            },
            numbers: 0,
            patterns: 0,
        }
    }

    // Seals rows and definitions that pass the test; of any others it makes the book that accepts nothing.
    // So what it makes is a sealed book always.
    pub fn seal<K: Number>(draft: Draft<'a>, limits: Limits<'_, K>) -> Book<'a>
        ensures same { Sealed (limits_in K.Number.kind limits.entry) (drafted draft.entry) → Views result draft.entry.rows.now draft.entry.definitions.now (length limits.entry.numbers.now) limits.entry.patterns }
        ensures nothing { (Sealed (limits_in K.Number.kind limits.entry) (drafted draft.entry) → ⊥) → Nothing result }
        ensures sealed { Sealed (counts result.patterns result.numbers) (drafted result.draft) }
    {
        // Not `is_err`: the case says to the proof what the test found.
        if let Err(_) = test_book(draft, limits) {
            return Book::accepting_nothing();
        }
        Book {
            draft,
            numbers: limits.numbers.len(),
            patterns: limits.patterns,
        }
    }

    // The rows.
    pub fn rows(&self) -> &'a [Row]
        ensures { result.now ≡ self.now.draft.rows.now }
    {
        self.draft.rows
    }

    // The body rows of the definitions.
    pub fn definitions(&self) -> &'a [u16]
        ensures { result.now ≡ self.now.draft.definitions.now }
    {
        self.draft.definitions
    }

    // How many numbers the book has.
    pub fn number_count(&self) -> usize
        ensures { result ≡ self.now.numbers }
    {
        self.numbers
    }

    // How many patterns the dialect has that the book is sealed for.
    pub fn pattern_count(&self) -> usize
        ensures { result ≡ self.now.patterns }
    {
        self.patterns
    }
}
