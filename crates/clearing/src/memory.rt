// Memory for a cleared book.
use rules::row::Row;

// Lent by the caller. The cleared book is written over the front of each.
#[derive(Drop)]
pub struct ClearedMemory<'a> {
    pub rows: &'a mut [Row],
    pub definitions: &'a mut [u16],
}
