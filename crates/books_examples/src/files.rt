// Files of small books, read and refused.
use crate::refusals::refusal;
use book_files::memory::BookMemory;
use book_files::reading::{BookCounts, read_book};
use faults::{Layer, Refusal};
use kinds::number::Number;
use kinds::whole::Whole;
use rules::row::Row;

// What stands in the memory before a file is read.
const OLD: Row = Row::True;

// The refusal of a file, if it is refused.
fn refused(file: &[u8]) -> Option<Refusal> {
    let mut memory = BookMemory {
        numbers: &mut [Whole::zero(); 2],
        rows: &mut [OLD; 3],
        definitions: &mut [9; 2],
    };
    read_book(file, 1, &mut memory).err().map(Refusal::from)
}

// A stop of at least 5 minutes: the number 5, a row that is `between` from it on, a definition.
#[test]
fn a_file_is_read(rt: HostRuntime) {
    let mut definitions = [9; 2];
    let mut memory = BookMemory {
        numbers: &mut [Whole::zero(); 2],
        rows: &mut [OLD; 2],
        definitions: &mut definitions,
    };
    let file = b"\x01\x00\x015\x02\x00\x0a\x08\x01\0\0\0\0\0\0\0\0\x03\x00\x02\0\0";
    let read = read_book(file, 0, &mut memory);
    let counts = BookCounts {
        numbers: 1,
        rows: 1,
        definitions: 1,
    };
    assert_eq!(rt; read.ok(), Some(counts));
    assert!(rt; memory.numbers[0].is_positive());
    assert!(rt; matches!(memory.rows[0], Row::Between(_)));
    assert!(rt;
        matches!(memory.rows[1], Row::True),
        "memory past the rows stays"
    );
    assert_eq!(rt; definitions, [0, 9]);
}

// The same file without its last byte.
#[test]
fn a_refusal_leaves_zeros(rt: HostRuntime) {
    let mut definitions = [9; 2];
    let mut memory = BookMemory {
        numbers: &mut [Whole::zero(); 2],
        rows: &mut [OLD; 2],
        definitions: &mut definitions,
    };
    let file = b"\x01\x00\x015\x02\x00\x0a\x08\x01\0\0\0\0\0\0\0\0\x03\x00\x02\0";
    let read = read_book(file, 0, &mut memory);
    assert!(rt; read.is_err());
    assert!(rt; !memory.numbers[0].is_positive());
    assert!(rt; matches!(memory.rows[0], Row::False));
    assert!(rt; matches!(memory.rows[1], Row::False));
    assert_eq!(rt; definitions, [0, 0]);
}

// A row that needs its own definition, and one whose definition is missing.
#[test]
fn the_end_of_a_file_is_tested(rt: HostRuntime) {
    let itself =
        b"\x02\x00\x0a\x01\0\0\0\0\0\0\0\0\0\x02\x00\x0a\x15\0\0\0\0\0\0\0\0\0\x03\x00\x02\0\x01";
    assert_eq!(rt;
        refused(itself),
        refusal(27, 1, Layer::Book),
        "by the row's number"
    );
    let missing =
        b"\x02\x00\x0a\x01\0\0\0\0\0\0\0\0\0\x02\x00\x0a\x15\0\0\x01\0\0\0\0\0\0\x03\x00\x02\0\x01";
    assert_eq!(rt;
        refused(missing),
        refusal(26, 13, Layer::Book),
        "by the offset of the row's field"
    );
    let none = b"\x02\x00\x0a\x01\0\0\0\0\0\0\0\0\0";
    assert_eq!(rt;
        refused(none),
        refusal(28, 13, Layer::Book),
        "by the file's length"
    );
}

#[test]
fn a_field_is_refused_at_its_offset(rt: HostRuntime) {
    assert_eq!(rt;
        refused(b"\x01\x00\x015\x01\x00\x02x5"),
        refusal(24, 4, Layer::Kind),
        "no number"
    );
    assert_eq!(rt;
        refused(b"\x01\x00\x015\x04\x00\x00"),
        refusal(21, 4, Layer::Book),
        "no book's tag"
    );
    assert_eq!(rt;
        refused(b"\x01\x00\x015\x01\x00"),
        refusal(22, 4, Layer::Book),
        "cut short"
    );
    assert_eq!(rt;
        refused(b"\x01\x00\x015\x01\x00\x016\x01\x00\x017"),
        refusal(34, 8, Layer::Book),
        "no room for a third"
    );
    assert_eq!(rt;
        refused(b"\x02\x00\x0a\x05\0\0\x01\0\0\0\0\0\0"),
        refusal(23, 0, Layer::Book),
        "no such pattern"
    );
    assert_eq!(rt;
        refused(b"\x01\x00\x010\x02\x00\x0a\x0a\0\0\0\0\0\0\0\0\0"),
        refusal(25, 4, Layer::Book),
        "multiples of zero"
    );
}

#[test]
fn layers_are_told_by_number(rt: HostRuntime) {
    assert_eq!(rt; u8::from(Layer::Kind), 1);
    assert_eq!(rt; u8::from(Layer::Book), 3);
}
