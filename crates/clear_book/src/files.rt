// Reads the three files, and clears the book.
ghost use Rattle.dialects.specs.Files.{room};
ghost use Rattle.clear_book.specs.Files.{Counts, Settled, FilesCome};
ghost use Rattle.clear_book.specs.Steps.{shown_of};

use crate::fault::Fault;
use crate::limited::LimitedBook;
use book_files::memory::BookMemory;
use clearing::memory::ClearedMemory;
use dialects::fault::PatternFault;
use dialects::limits::MOST_PATTERNS;
use dialects::reading::{read_masks, read_names};
use fields::part::Part;
use kinds::number::Number;

// The bytes of the three files.
#[derive(Clone, Copy)]
pub(crate) struct Files<'a> {
    pub names: &'a [u8],
    pub masks: &'a [u8],
    pub book: &'a [u8],
}

// What is lent to the program: memory for the parts of one file of patterns, for a book, and for the book cleared.
#[derive(Drop)]
pub(crate) struct Memory<'a, K> {
    pub parts: &'a mut [Part],
    pub book: BookMemory<'a, K>,
    pub cleared: ClearedMemory<'a>,
}

// How many patterns the names and masks of two files are side by side. The memory is for the parts of one file at a time.
fn pattern_count(names: &[u8], masks: &[u8], parts: &mut [Part]) -> Result<usize, PatternFault>
    ensures { Settled (Counts (room parts.old) names.now masks.now) result }
{
    let first = read_names(names, parts)?;
    let second = read_masks(masks, parts)?;
    Ok((first + second).min(MOST_PATTERNS))
}

// Reads the three files and clears the book.
pub(crate) fn clear_files<'a, K: Number>(
    files: Files<'_>,
    memory: &'a mut Memory<'_, K>,
) -> Result<LimitedBook<'a, K>, Fault>
    ensures { Settled (FilesCome K.Number.kind files.entry memory.old) (shown_of result) }
{
    let patterns = pattern_count(files.names, files.masks, memory.parts)?;
    let book = LimitedBook::read(files.book, patterns, &mut memory.book)?;
    Ok(book.cleared(&mut memory.cleared)?)
}
