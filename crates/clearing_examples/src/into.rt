// Clears a book and makes a view of what was written.
ghost use Rattle.std.specs.Prelude.{length};
ghost use Rattle.rules.specs.Book.{limits_of, Sealed};
ghost use Rattle.rules.specs.Clear.{clear as cleared_book};
ghost use Rattle.books.specs.Views.{Views};
ghost use Rattle.clearing.specs.Outcomes.{memory_of};
ghost use Rattle.clearing.specs.Views.{viewed};
ghost use Rattle.clearing.specs.Cleared.{Nothing};
ghost use Rattle.clearing_examples.specs.Into.{Fits};

use books::book::Book;
use books::draft::Draft;
use books::limits::Limits;
use clearing::cleared::Cleared;
use clearing::memory::ClearedMemory;
use clearing::sealed::clear_sealed;
use kinds::number::Number;

// A view of the cleared book where it fits into the memory, and otherwise of one that accepts nothing.
pub(crate) fn clear_into<'a, K: Number>(
    book: &Book<'_>,
    numbers: &[K],
    mut memory: ClearedMemory<'a>,
) -> Cleared<'a>
    ensures written { Sealed (limits_of K.Number.kind book.now.patterns numbers.now) (viewed book.now) → Fits (viewed book.now) (memory_of memory.entry) → Views result.book (cleared_book (viewed book.now)).rows (cleared_book (viewed book.now)).definitions (length numbers.now) book.now.patterns }
    ensures nothing { (Fits (viewed book.now) (memory_of memory.entry) → ⊥) → Nothing result }
{
    let limits = Limits {
        numbers,
        patterns: book.pattern_count(),
    };
    let Ok(n) = clear_sealed(book, &mut memory) else {
        let nothing = Draft {
            rows: &[],
            definitions: &[],
        };
        return Cleared::of(Book::seal(nothing, limits));
    };
    let d = 2 * book.definitions().len();
    let ClearedMemory { rows, definitions } = memory;
    let draft = Draft {
        rows: &rows[..n],
        definitions: &definitions[..d],
    };
    Cleared::of(Book::seal(draft, limits))
}
