// A cleared book, as a view of the memory that it stands in.
ghost use Rattle.std.specs.Prelude.{◌≡◌, ◌%◌, length};
ghost use Rattle.rules.specs.Book.{WithoutNot};
ghost use Rattle.clearing.specs.Views.{viewed};

use books::book::Book;

mod views;

// A sealed book that has no `not` and an even count of definitions.
// It has a type of its own, so that what needs a cleared book can't be handed another sealed one.
#[derive(Drop)]
pub struct Cleared<'a> {
    book: Book<'a>,
    ghost without: { WithoutNot (viewed book) },
    ghost even: { length (viewed book).definitions % 2 ≡ 0 },
}
