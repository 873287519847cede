// Where a row stands in the cleared book.

// The row that says the same, and the row that says the opposite.
#[derive(Clone, Copy, PartialEq, Eq, Debug, Default)]
pub struct Place {
    pub positive: u16,
    pub negative: u16,
}
