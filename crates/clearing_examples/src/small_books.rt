// Small books, cleared.
use books::draft::Draft;
use clearing::clear;
use clearing::memory::ClearedMemory;
use rules::row::{Bounds, Range, Row};

const UNTOUCHED: Row = Row::Length(Range {
    lower: 9,
    upper: None,
});

// A list of things that this very rule does not accept.
#[test]
fn a_rule_that_names_itself(rt: HostRuntime) {
    let draft = Draft {
        rows: &[Row::Variable(0), Row::Not(0), Row::EveryElement(1)],
        definitions: &[2],
    };
    let mut out = ClearedMemory {
        rows: &mut [UNTOUCHED; 14],
        definitions: &mut [7; 3],
    };
    assert_eq!(rt; clear(draft, &mut out).ok(), Some(13));
    let cleared = [
        Row::True,
        Row::False,
        Row::Variable(0),
        Row::Variable(1),
        Row::EveryElement(9),
        Row::SomeElement(8),
        Row::And(4, 11),
    ];
    assert_eq!(rt; &out.rows[6..13], cleared.as_slice());
    assert_eq!(rt; out.rows[13], UNTOUCHED, "memory past the rows stays");
    assert_eq!(rt; &*out.definitions, [10, 12, 7].as_slice());
}

// Not a train that leaves between the book's first and second number.
#[test]
fn a_comparison_has_two_sides(rt: HostRuntime) {
    let window = Bounds {
        lower: Some(0),
        upper: Some(1),
    };
    let before = Bounds {
        lower: None,
        upper: Some(0),
    };
    let after = Bounds {
        lower: Some(1),
        upper: None,
    };
    let draft = Draft {
        rows: &[Row::Between(window)],
        definitions: &[0],
    };
    let mut out = ClearedMemory {
        rows: &mut [UNTOUCHED; 13],
        definitions: &mut [7; 2],
    };
    assert_eq!(rt; clear(draft, &mut out).ok(), Some(13));
    let cleared = [
        Row::Between(window),
        Row::StrictlyBetween(before),
        Row::StrictlyBetween(after),
        Row::Or(9, 10),
        Row::And(2, 11),
    ];
    assert_eq!(rt; &out.rows[8..], cleared.as_slice());
    assert_eq!(rt; &*out.definitions, [8, 12].as_slice());
}

// Any count of stops is at least 0, so there is nothing to leave out.
#[test]
fn an_open_range_has_no_side(rt: HostRuntime) {
    let all = Range {
        lower: 0,
        upper: None,
    };
    let draft = Draft {
        rows: &[Row::Members(all)],
        definitions: &[0],
    };
    let mut out = ClearedMemory {
        rows: &mut [UNTOUCHED; 9],
        definitions: &mut [0; 2],
    };
    assert_eq!(rt; clear(draft, &mut out).ok(), Some(9));
    assert_eq!(rt; &*out.definitions, [8, 7].as_slice());
}
