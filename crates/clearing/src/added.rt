// What a row adds to the cleared book.
ghost use Rattle.std.specs.Prelude.{◌≡◌};
ghost use Rattle.rules.specs.Clear.{added as added_rows};
ghost use Rattle.clearing.specs.Adding.{rows_of, listed};

use rules::place::Place;
use rules::row::Row;

// The rows that are added. No heap, and so an array for each count.
#[derive(Clone, Copy)]
pub(crate) enum NewRows {
    None,
    One([Row; 1]),
    Two([Row; 2]),
    Three([Row; 3]),
    Four([Row; 4]),
    Five([Row; 5]),
}

impl NewRows {
    // The rows, one after another.
    pub(crate) fn as_slice(&self) -> &[Row]
        ensures { result.now ≡ rows_of self.now }
    {
        match self {
            NewRows::None => &[],
            NewRows::One(rows) => rows,
            NewRows::Two(rows) => rows,
            NewRows::Three(rows) => rows,
            NewRows::Four(rows) => rows,
            NewRows::Five(rows) => rows,
        }
    }
}

// The rows, and the place of the row that they are added for.
#[derive(Clone, Copy)]
pub(crate) struct Added {
    pub(crate) rows: NewRows,
    pub(crate) stands: Place,
}

impl Added {
    // Rows that are added for a row which then stands at `positive`, and its complement at `negative`.
    pub(crate) fn new(rows: NewRows, positive: u16, negative: u16) -> Added
        ensures { listed result ≡ added_rows (rows_of rows) positive negative }
    {
        Added {
            rows,
            stands: Place { positive, negative },
        }
    }
}
