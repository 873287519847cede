// The fields of a row as its ten bytes hold them.
ghost use Rattle.std.specs.Prelude.{◌≡◌, ◌+◌, ◌*◌};
ghost use Rattle.rows.specs.Fields.{range_ends, bounds_ends, ends_from, fields_from, ReadsFields};

use rules::row::{Bounds, Range};

// The ends that are present. No `Bounds`: those name numbers of a book, and these are any ends as the bytes hold them.
#[derive(Clone, Copy, Default)]
pub(crate) struct Ends {
    pub(crate) lower: Option<u16>,
    pub(crate) upper: Option<u16>,
}

impl From<Range> for Ends {
    ghost from_gives = { λ range ends. ends ≡ range_ends range };

    fn from(range: Range) -> Ends {
        Ends {
            lower: Some(range.lower),
            upper: range.upper,
        }
    }
}

impl From<Bounds> for Ends {
    ghost from_gives = { λ bounds ends. ends ≡ bounds_ends bounds };

    fn from(bounds: Bounds) -> Ends {
        Ends {
            lower: bounds.lower,
            upper: bounds.upper,
        }
    }
}

// A row's operator by its number, its operands and its ends; what an operator leaves unused is 0.
#[derive(Clone, Copy)]
pub(crate) struct Fields {
    pub(crate) operator: u8,
    pub(crate) first: u16,
    pub(crate) second: u16,
    pub(crate) ends: Ends,
}

// The ends, by the byte that says which are present: bit 0 the lower, bit 1 the upper. An absent one holds 0. A table, as for `present`.
fn ends_of(present: u8, lower: u16, upper: u16) -> Option<Ends>
    ensures { result ≡ ends_from present lower upper }
{
    let (lower, upper) = match (present, lower, upper) {
        (0, 0, 0) => (None, None),
        (1, _, 0) => (Some(lower), None),
        (2, 0, _) => (None, Some(upper)),
        (3, _, _) => (Some(lower), Some(upper)),
        _ => return None,
    };
    Some(Ends { lower, upper })
}

// The number of two bytes.
fn word(high: u8, low: u8) -> u16
    ensures { result ≡ high * 256 + low }
{
    u16::from_be_bytes([high, low])
}

// The fields that ten bytes hold, if they are ten and the ends agree with the byte that tells of them.
pub(crate) fn fields_of(bytes: &[u8]) -> Option<Fields>
    ensures is { result ≡ fields_from bytes.now }
    ensures holds { ReadsFields bytes.now result }
{
    let [operator, present, a, b, c, d, e, f, g, h] = bytes else {
        return None;
    };
    Some(Fields {
        operator: *operator,
        first: word(*a, *b),
        second: word(*c, *d),
        ends: ends_of(*present, word(*e, *f), word(*g, *h))?,
    })
}
