// The memory that a book is read into.
use rules::row::Row;

// Memory for numbers, rows and definitions, lent by whoever asks for a book.
#[derive(Drop)]
pub struct BookMemory<'a, K> {
    pub numbers: &'a mut [K],
    pub rows: &'a mut [Row],
    pub definitions: &'a mut [u16],
}
