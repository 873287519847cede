// How much a book may have, and what its rows may name.
pub const MOST_NUMBERS: usize = 1024;

pub const MOST_ROWS: usize = 2048;

pub const MOST_DEFINITIONS: usize = 128;

// What the rows of a book may name: its numbers, and so many patterns.
#[derive(Clone, Copy)]
pub struct Limits<'a, K> {
    pub numbers: &'a [K],
    pub patterns: usize,
}
