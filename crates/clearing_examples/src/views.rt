// Views of cleared books.
use crate::into::clear_into;
use books::book::Book;
use books::draft::Draft;
use books::limits::Limits;
use clearing::cleared::Cleared;
use clearing::form::is_cleared;
use clearing::memory::ClearedMemory;
use kinds::whole::Whole;
use rules::row::Row;

// A list of things that this very rule does not accept.
static ROWS: [Row; 3] = [Row::Variable(0), Row::Not(0), Row::EveryElement(1)];

static BODIES: [u16; 1] = [2];

// The book, sealed for three patterns. It has no numbers, so that their kind is all one.
fn sealed() -> Book<'static> {
    let draft = Draft {
        rows: &ROWS,
        definitions: &BODIES,
    };
    let limits = Limits::<Whole> {
        numbers: &[],
        patterns: 3,
    };
    Book::seal(draft, limits)
}

#[test]
fn what_was_cleared_is_viewed(rt: HostRuntime) {
    let memory = ClearedMemory {
        rows: &mut [Row::Not(9); 20],
        definitions: &mut [7; 5],
    };
    let cleared = clear_into::<Whole>(&sealed(), &[], memory);
    assert_eq!(rt; cleared.rows().len(), 13);
    assert_eq!(rt; cleared.rows()[12], Row::And(4, 11));
    assert_eq!(rt; cleared.definitions(), [10, 12].as_slice());
    assert_eq!(rt; cleared.number_count(), 0);
    assert_eq!(rt; cleared.pattern_count(), 3);
}

#[test]
fn a_book_with_not_is_no_cleared_one(rt: HostRuntime) {
    let book = sealed();
    assert!(rt; !is_cleared(&book));
    let cleared = Cleared::of(book);
    assert_eq!(rt; cleared.rows(), [Row::False, Row::True].as_slice());
    assert_eq!(rt; cleared.definitions(), [0, 1].as_slice());
    assert_eq!(rt; cleared.pattern_count(), 0);
}
