// Why a rule book is refused.
ghost use Rattle.std.specs.Prelude.{◌≡◌};
ghost use Rattle.books.specs.Faults.{refusal_of};
ghost use Rattle.books.specs.declared.fault.BookFault.TheVariants.{BadNumber};

use faults::{Layer, Refusal};
use kinds::number::{Cause, NumberFault};

// Each case but the first has a place. In a file it is the offset of the field, but the file's length for `NoDefinition`;
// of rows and definitions in memory it is the number of the one that is refused. A cycle is placed by its row in both.
#[derive(Clone, Copy, PartialEq, Eq, Debug)]
pub enum BookFault {
    FileTooLong,
    UnknownTag(usize),
    WrongLength(usize),
    // an operator, a field or an operand that a row may not have
    NotAllowed(usize),
    BadNumber(usize, Cause),
    // multiples of a number that is not above zero
    NotAboveZero(usize),
    // a definition's body row, or a variable's definition
    Missing(usize),
    // the lowest row that needs itself
    Unguarded(usize),
    NoDefinition(usize),
    TooMany(usize),
}

// A number outside the kind is a fault of the book, at the number's field.
impl From<NumberFault> for BookFault {
    ghost from_gives = { λ n b. b ≡ BadNumber n.place n.cause };

    fn from(fault: NumberFault) -> BookFault {
        BookFault::BadNumber(fault.place, fault.cause)
    }
}

// The number, place and layer of a fault.
impl From<BookFault> for Refusal {
    ghost from_gives = { λ f r. r ≡ refusal_of f };

    fn from(fault: BookFault) -> Refusal {
        let (number, place, layer) = match fault {
            BookFault::FileTooLong => (31, 0, Layer::Book),
            BookFault::UnknownTag(place) => (21, place, Layer::Book),
            BookFault::WrongLength(place) => (22, place, Layer::Book),
            BookFault::NotAllowed(place) => (23, place, Layer::Book),
            BookFault::BadNumber(place, _) => (24, place, Layer::Kind),
            BookFault::NotAboveZero(place) => (25, place, Layer::Book),
            BookFault::Missing(place) => (26, place, Layer::Book),
            BookFault::Unguarded(row) => (27, row, Layer::Book),
            BookFault::NoDefinition(place) => (28, place, Layer::Book),
            BookFault::TooMany(place) => (34, place, Layer::Book),
        };
        Refusal {
            number,
            place,
            layer,
        }
    }
}
