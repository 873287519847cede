// Files that are read, and files that are refused.
use dialects::fault::PatternFault;
use dialects::reading::{read_masks, read_names};
use faults::{Layer, Refusal};
use fields::part::Part;

const NOTHING: Part = Part {
    start: 0,
    length: 0,
};

const UNTOUCHED: Part = Part {
    start: 9,
    length: 9,
};

// How a names file is refused that is read into memory for two patterns.
fn refused_names(file: &[u8]) -> Option<Refusal> {
    let mut parts = [UNTOUCHED; 2];
    read_names(file, &mut parts).err().map(Refusal::from)
}

// A refusal by this number, at this place.
fn refusal(number: u8, place: usize) -> Option<Refusal> {
    Some(Refusal {
        number,
        place,
        layer: Layer::Dialect,
    })
}

#[test]
fn two_stations_are_read(rt: HostRuntime) {
    let mut parts = [UNTOUCHED; 3];
    let read = read_names(b"\x04\x00\x03Ulm\x04\x00\x04Bonn", &mut parts);
    assert_eq!(rt; read.ok(), Some(2));
    assert_eq!(rt;
        parts[0],
        Part {
            start: 3,
            length: 3,
        }
    );
    assert_eq!(rt;
        parts[1],
        Part {
            start: 9,
            length: 4,
        }
    );
    assert_eq!(rt; parts[2], UNTOUCHED, "memory past the filled part stays");
}

#[test]
fn an_empty_file_has_no_patterns(rt: HostRuntime) {
    let mut parts = [UNTOUCHED; 1];
    assert_eq!(rt; read_masks(b"", &mut parts).ok(), Some(0));
    assert_eq!(rt; parts[0], UNTOUCHED);
}

#[test]
fn an_empty_pattern_is_a_pattern(rt: HostRuntime) {
    let mut parts = [UNTOUCHED; 1];
    assert_eq!(rt; read_masks(b"\x05\x00\x00", &mut parts).ok(), Some(1));
    assert_eq!(rt;
        parts[0],
        Part {
            start: 3,
            length: 0,
        }
    );
}

#[test]
fn a_refused_file_leaves_nothing(rt: HostRuntime) {
    let mut parts = [UNTOUCHED; 3];
    let read = read_names(b"\x04\x00\x03Ulm\x05\x00\x00", &mut parts);
    assert!(rt; read.is_err());
    assert_eq!(rt; parts[0], NOTHING);
    assert_eq!(rt; parts[1], NOTHING);
    assert_eq!(rt; parts[2], NOTHING);
}

#[test]
fn refusals_come_in_order(rt: HostRuntime) {
    assert_eq!(rt;
        refused_names(b"\x05\x00"),
        refusal(22, 0),
        "too short for a head, whatever the tag"
    );
    assert_eq!(rt;
        refused_names(b"\x04\x00\x00\x05\x00\x09Ulm"),
        refusal(21, 3),
        "the tag before the length"
    );
    assert_eq!(rt;
        refused_names(b"\x04\x00\x04Ulm"),
        refusal(22, 0),
        "a body cut short"
    );
    assert_eq!(rt;
        refused_names(b"\x04\x00\x00\x04\x00\x00\x04\x00\x00"),
        refusal(34, 6),
        "room for two"
    );
    assert_eq!(rt;
        refused_names(b"\x04\x00\x00\x04\x00\x00\x04\x00\x01"),
        refusal(22, 6),
        "the length before the room"
    );
}

#[test]
fn a_pattern_has_at_most_255_bytes(rt: HostRuntime) {
    let mut longest = [b'x'; 258];
    longest[0] = 4;
    longest[1] = 0;
    longest[2] = 255;
    assert_eq!(rt; refused_names(&longest), None);
    let mut longer = [b'x'; 259];
    longer[0] = 4;
    longer[1] = 1;
    longer[2] = 0;
    assert_eq!(rt; refused_names(&longer), refusal(22, 0));
}

#[test]
fn refusals_are_of_the_fourth_layer(rt: HostRuntime) {
    assert_eq!(rt; u8::from(Layer::Dialect), 4);
}

#[test]
fn a_refusal_has_a_line(rt: HostRuntime) {
    let refusal = Refusal::from(PatternFault::TooMany(6));
    let line = refusal.line(rt.alloc()).expect(&rt, "there is memory");
    assert!(rt; line.as_slice() == b"refused 34 at 6\n".as_slice());
}
