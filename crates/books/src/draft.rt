// Rows and definitions that are not tested yet.
use rules::row::Row;

// The rows of a book, and the body row of each definition, as they stand in memory.
#[derive(Clone, Copy)]
pub struct Draft<'a> {
    pub rows: &'a [Row],
    pub definitions: &'a [u16],
}
