// What names, masks and pairs match.
ghost use Rattle.std.specs.Prelude.{◌≤◌};

use dialects::dialect::{BoundedDialect, Dialect};
use dialects::masks::Masks;
use dialects::names::Names;
use dialects::pair::Pair;
use fields::part::Part;

// One part that is the whole of any mask here.
static WHOLE: [Part; 1] = [Part {
    start: 0,
    length: 255,
}];

// What a proof knows of a dialect that it doesn't ask: its count fits two bytes.
fn knows_bound<D: BoundedDialect>(_dialect: &D)
    ensures { D.Dialect.count _dialect.now ≤ 65535 }
{}

// Whether a mask matches a text.
fn fits(mask: &[u8], text: &[u8]) -> bool {
    Masks::new(mask, &WHOLE).is_match(0, text)
}

#[test]
fn a_star_is_any_run(rt: HostRuntime) {
    assert!(rt; fits(b"*", b""));
    assert!(rt; fits(b"IC *", b"IC 704"));
    assert!(rt; fits(b"IC *", b"IC "));
    assert!(rt; !fits(b"IC *", b"IC"));
    assert!(rt; fits(b"*Hbf*", b"Ulm Hbf (tief)"));
    assert!(rt; fits(b"a*b*c", b"abbcbc"));
    assert!(rt; !fits(b"a*b*c", b"abbcb"));
}

#[test]
fn a_question_mark_is_one_byte(rt: HostRuntime) {
    assert!(rt; fits(b"Gleis ?", b"Gleis 7"));
    assert!(rt; !fits(b"Gleis ?", b"Gleis 11"));
    assert!(rt; !fits(b"?", b""));
    assert!(rt;
        fits(b"??", "ü".as_bytes()),
        "bytes are counted, not characters"
    );
}

#[test]
fn there_is_no_escape(rt: HostRuntime) {
    assert!(rt; fits(b"a*", b"a*"));
    assert!(rt; !fits(b"\\*", b"*"), "a backslash stands for itself");
}

#[test]
fn many_stars_do_not_run_away(rt: HostRuntime) {
    let text = [b'a'; 200];
    assert!(rt; !fits(b"*a*a*a*a*a*a*a*a*a*a*a*a*a*a*a*a*b", &text));
}

#[test]
fn names_come_before_masks(rt: HostRuntime) {
    let one = [Part {
        start: 0,
        length: 3,
    }];
    let first = Names::new(b"Ulm", &one);
    let second = Masks::new(b"U*m", &one);
    let both = Pair { first, second };
    assert_eq!(rt; both.pattern_count(), 2);
    assert!(rt; both.is_match(0, b"Ulm"));
    assert!(rt; !both.is_match(0, b"Um"));
    assert!(rt; both.is_match(1, b"Um"));
    assert!(rt; !both.is_match(2, b"Um"), "past the count nothing matches");
}

#[test]
fn a_pile_of_pairs_is_a_dialect(rt: HostRuntime) {
    let one = [Part {
        start: 0,
        length: 3,
    }];
    let names = Names::new(b"Ulm", &one);
    let inner = Pair {
        first: names,
        second: names,
    };
    let pile = Pair {
        first: inner,
        second: names,
    };
    knows_bound(&pile);
    assert_eq!(rt; pile.pattern_count(), 3);
    assert!(rt; pile.is_match(2, b"Ulm"));
    assert!(rt; !pile.is_match(3, b"Ulm"));
}

#[test]
fn a_part_past_the_file_is_cut(rt: HostRuntime) {
    let parts = [
        Part {
            start: 1,
            length: 9,
        },
        Part {
            start: 7,
            length: 1,
        },
    ];
    let names = Names::new(b"Ulm", &parts);
    assert!(rt; names.is_match(0, b"lm"));
    assert!(rt; names.is_match(1, b""));
}
