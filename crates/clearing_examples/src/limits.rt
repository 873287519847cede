// Books that are too large once they are cleared, each cleared as it is and as a sealed book.
use books::book::Book;
use books::draft::Draft;
use books::limits::Limits;
use clearing::clear;
use clearing::fault::ClearFault;
use clearing::memory::ClearedMemory;
use clearing::sealed::clear_sealed;
use faults::{Layer, Refusal};
use kinds::whole::Whole;
use rules::row::{Range, Row};
use std::process::Abort;

const UNTOUCHED: Row = Row::Not(9);

const ONE_TO_FOUR: Row = Row::Members(Range {
    lower: 1,
    upper: Some(4),
});

// The refusal of a book, with this number.
fn refused(number: u8) -> Refusal {
    Refusal {
        number,
        place: 0,
        layer: Layer::Book,
    }
}

// Seals a draft and clears what is sealed.
fn clear_as_sealed(draft: Draft<'_>, out: &mut ClearedMemory<'_>) -> Result<usize, ClearFault> {
    let limits = Limits::<Whole> {
        numbers: &[],
        patterns: 0,
    };
    clear_sealed(&Book::seal(draft, limits), out)
}

// Each range of two ends takes five rows, beside the eight that stand first.
fn check_ranges<F>(rt: &impl Abort, clear: F)
where
    F: Fn(Draft<'_>, &mut ClearedMemory<'_>) -> Result<usize, ClearFault>,
    requires { F.IsAlwaysCallable clear }
{
    let mut out = ClearedMemory {
        rows: &mut [UNTOUCHED; 2048],
        definitions: &mut [7; 2],
    };
    let more = Draft {
        rows: &[ONE_TO_FOUR; 409],
        definitions: &[0],
    };
    let refusal = clear(more, &mut out).map_err(Refusal::from);
    assert_eq!(rt; refusal, Err(refused(35)), "2,053 rows");
    let first = out.rows.first().copied();
    assert_eq!(rt; first, Some(UNTOUCHED), "nothing is changed");
    assert_eq!(rt; &*out.definitions, [7, 7].as_slice());
    let most = Draft {
        rows: &[ONE_TO_FOUR; 408],
        definitions: &[0],
    };
    assert_eq!(rt; clear(most, &mut out), Ok(2048));
}

// Each definition takes two places.
fn check_definitions<F>(rt: &impl Abort, clear: F)
where
    F: Fn(Draft<'_>, &mut ClearedMemory<'_>) -> Result<usize, ClearFault>,
    requires { F.IsAlwaysCallable clear }
{
    let mut out = ClearedMemory {
        rows: &mut [UNTOUCHED; 8],
        definitions: &mut [7; 130],
    };
    let more = Draft {
        rows: &[Row::True],
        definitions: &[0; 65],
    };
    let refusal = clear(more, &mut out).map_err(Refusal::from);
    assert_eq!(rt; refusal, Err(refused(36)));
    let first = out.rows.first().copied();
    assert_eq!(rt; first, Some(UNTOUCHED), "nothing is changed");
    let most = Draft {
        rows: &[Row::True],
        definitions: &[0; 64],
    };
    assert_eq!(rt; clear(most, &mut out), Ok(8));
    assert_eq!(rt; out.definitions.get(63).copied(), Some(6));
    assert_eq!(rt; out.definitions.get(64).copied(), Some(7));
}

// Where neither fits, it is the rows that are told of.
fn check_order<F>(rt: &impl Abort, clear: F)
where
    F: Fn(Draft<'_>, &mut ClearedMemory<'_>) -> Result<usize, ClearFault>,
    requires { F.IsAlwaysCallable clear }
{
    let mut out = ClearedMemory {
        rows: &mut [UNTOUCHED; 7],
        definitions: &mut [7; 1],
    };
    let draft = Draft {
        rows: &[Row::True],
        definitions: &[0],
    };
    let refusal = clear(draft, &mut out).map_err(Refusal::from);
    assert_eq!(rt; refusal, Err(refused(35)));
}

#[test]
fn refusals_are_of_the_book(rt: HostRuntime) {
    assert_eq!(rt; u8::from(refused(35).layer), 3);
}

#[test]
fn each_range_of_two_ends_takes_five_rows(rt: HostRuntime) {
    check_ranges(&rt, clear);
}

#[test]
fn a_sealed_range_of_two_ends_takes_five_rows(rt: HostRuntime) {
    check_ranges(&rt, clear_as_sealed);
}

#[test]
fn each_definition_takes_two_places(rt: HostRuntime) {
    check_definitions(&rt, clear);
}

#[test]
fn each_sealed_definition_takes_two_places(rt: HostRuntime) {
    check_definitions(&rt, clear_as_sealed);
}

#[test]
fn too_many_rows_come_before_too_many_definitions(rt: HostRuntime) {
    check_order(&rt, clear);
}

#[test]
fn too_many_sealed_rows_come_before_too_many_definitions(rt: HostRuntime) {
    check_order(&rt, clear_as_sealed);
}
