// Books that stand in memory, tested by number and sealed.
use crate::refusals::refusal;
use books::book::Book;
use books::draft::Draft;
use books::limits::Limits;
use books::sealing::test_book;
use faults::{Layer, Refusal};
use kinds::whole::Whole;
use rules::row::Row;

// No number and no pattern may be named.
fn nothing() -> Limits<'static, Whole> {
    Limits {
        numbers: &[],
        patterns: 0,
    }
}

// The refusal of rows and definitions, if they are refused.
fn refused(rows: &[Row], definitions: &[u16]) -> Option<Refusal> {
    let draft = Draft { rows, definitions };
    test_book(draft, nothing()).err().map(Refusal::from)
}

// A train of a train: it may be made of trains without end, since the rule looks at parts.
#[test]
fn a_rule_may_name_itself_over_parts(rt: HostRuntime) {
    let rows = [Row::Variable(0), Row::EveryElement(0)];
    assert_eq!(rt; refused(&rows, &[1]), None);
    let book = Book::seal(
        Draft {
            rows: &rows,
            definitions: &[1],
        },
        nothing(),
    );
    assert_eq!(rt; book.rows().len(), 2);
}

#[test]
fn a_rule_may_not_need_itself(rt: HostRuntime) {
    let rows = [Row::True, Row::Variable(0), Row::Not(1)];
    assert_eq!(rt; refused(&rows, &[2]), refusal(27, 1, Layer::Book));
    let book = Book::seal(
        Draft {
            rows: &rows,
            definitions: &[2],
        },
        nothing(),
    );
    assert_eq!(rt; book.rows().len(), 1, "the book that accepts nothing");
    assert!(rt; matches!(book.rows()[0], Row::False));
}

#[test]
fn rows_and_definitions_are_placed_by_number(rt: HostRuntime) {
    assert_eq!(rt;
        refused(&[Row::True, Row::Not(1)], &[1]),
        refusal(23, 1, Layer::Book)
    );
    assert_eq!(rt; refused(&[Row::True], &[0, 1]), refusal(26, 1, Layer::Book));
    assert_eq!(rt;
        refused(&[Row::True, Row::Variable(2)], &[0]),
        refusal(26, 1, Layer::Book)
    );
    assert_eq!(rt; refused(&[Row::True], &[]), refusal(28, 0, Layer::Book));
}
