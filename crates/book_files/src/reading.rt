// Reads a book's file, and seals the book.
ghost use Rattle.rules.specs.declared.row.Row.TheVariants.{False};
ghost use Rattle.book_files.specs.Drafts.{SameLent, memory, held, room_of};
ghost use Rattle.book_files.specs.Files.{Erased, Reads, Granted};
ghost use Rattle.book_files.specs.Filling.{ReadsWhole};

use crate::ending::test_end;
use crate::filling::fill;
use crate::memory::BookMemory;
use books::draft::Draft;
use books::fault::BookFault;
use books::limits::Limits;
use fields::field::LONGEST_FILE;
use kinds::number::Number;
use lists::filling::fill_with;
use rules::row::Row;

// How many numbers, rows and definitions a book has. Counts and no slices: of memory that a result borrows nothing more could be promised.
#[derive(Clone, Copy, PartialEq, Eq, Debug)]
pub struct BookCounts {
    pub numbers: usize,
    pub rows: usize,
    pub definitions: usize,
}

// Reads a file up to what refuses it, field by field and then as a whole.
fn read_whole<K: Number>(
    bytes: &[u8],
    patterns: usize,
    numbers: &mut [K],
    rows: &mut [Row],
    definitions: &mut [u16],
) -> Result<BookCounts, BookFault>
    ensures { ReadsWhole K.Number.kind patterns bytes.now (memory numbers.old rows.old definitions.old) (memory numbers.new rows.new definitions.new) result }
{
    if bytes.len() > LONGEST_FILE {
        return Err(BookFault::FileTooLong);
    }
    let counts = fill(bytes, patterns, numbers, rows, definitions)?;
    let draft = Draft {
        rows: &rows[..counts.rows],
        definitions: &definitions[..counts.definitions],
    };
    let limits = Limits {
        numbers: &numbers[..counts.numbers],
        patterns,
    };
    test_end(bytes.len(), draft, limits)?;
    Ok(counts)
}

// Leaves nothing but zeros: a zero row is one that accepts nothing.
fn erase<K: Number>(numbers: &mut [K], rows: &mut [Row], definitions: &mut [u16])
    ensures { Erased K.Number.kind (memory numbers.old rows.old definitions.old) (memory numbers.new rows.new definitions.new) }
{
    fill_with(numbers, K::zero());
    fill_with(rows, Row::False);
    fill_with(definitions, 0);
}

// Reads a book's file into memory for its numbers, rows and definitions, and seals it for this count of patterns.
pub fn read_book<K: Number>(
    bytes: &[u8],
    patterns: usize,
    memory: &mut BookMemory<'_, K>,
) -> Result<BookCounts, BookFault>
    ensures reads { Reads K.Number.kind patterns bytes.now (held memory.old) (held memory.new) result }
    ensures granted { Granted K.Number.kind patterns (room_of (held memory.old)) bytes.now result }
    ensures lent { SameLent memory.old memory.new }
{
    // Three slices from here on: the borrow checker doesn't cover two fields of the memory lent in one call.
    let numbers = &mut *memory.numbers;
    let rows = &mut *memory.rows;
    let definitions = &mut *memory.definitions;
    let read = read_whole(bytes, patterns, numbers, rows, definitions);
    if read.is_err() {
        erase(numbers, rows, definitions);
    }
    read
}
