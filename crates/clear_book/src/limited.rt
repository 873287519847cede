// Reads a book's file, and clears the book.
ghost use Rattle.rules.specs.Book.{Sealed};
ghost use Rattle.books.specs.Drafts.{drafted, limits_in};
ghost use Rattle.book_files.specs.Drafts.{held, room_of};
ghost use Rattle.clearing.specs.Outcomes.{memory_of};
ghost use Rattle.clear_book.specs.Steps.{ReadsFile, Clears};

use book_files::memory::BookMemory;
use book_files::reading::read_book;
use books::book::Book;
use books::draft::Draft;
use books::fault::BookFault;
use books::limits::Limits;
use clearing::fault::ClearFault;
use clearing::memory::ClearedMemory;
use clearing::sealed::clear_sealed;
use kinds::number::Number;

// A book with what its rows may name.
#[derive(Clone, Copy)]
pub(crate) struct LimitedBook<'a, K> {
    pub draft: Draft<'a>,
    pub limits: Limits<'a, K>,
}

impl<'a, K: Number> LimitedBook<'a, K> {
    // The book of a file, for so many patterns.
    pub(crate) fn read(
        file: &[u8],
        patterns: usize,
        memory: &'a mut BookMemory<'_, K>,
    ) -> Result<LimitedBook<'a, K>, BookFault>
        ensures { ReadsFile K.Number.kind patterns (room_of (held memory.old)) file.now result }
    {
        let counts = read_book(file, patterns, memory)?;
        Ok(LimitedBook {
            draft: Draft {
                rows: &memory.rows[..counts.rows],
                definitions: &memory.definitions[..counts.definitions],
            },
            limits: Limits {
                numbers: &memory.numbers[..counts.numbers],
                patterns,
            },
        })
    }

    // This book cleared, within the same limits.
    pub(crate) fn cleared(
        self,
        memory: &'a mut ClearedMemory<'_>,
    ) -> Result<LimitedBook<'a, K>, ClearFault>
        requires { Sealed (limits_in K.Number.kind self.limits) (drafted self.draft) }
        ensures { Clears self.entry (memory_of memory.old) result }
    {
        let book = Book::seal(self.draft, self.limits);
        let rows = clear_sealed(&book, memory)?;
        Ok(LimitedBook {
            draft: Draft {
                rows: &memory.rows[..rows],
                definitions: &memory.definitions[..2 * self.draft.definitions.len()],
            },
            limits: self.limits,
        })
    }
}
