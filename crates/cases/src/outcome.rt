// The outcome that a line expects.
ghost use Rattle.std.specs.Prelude.{◌≡◌, drop, Some, MatchOption};
ghost use Rattle.cases.specs.Lefts.{parts_left};
ghost use Rattle.cases.specs.Outcomes.{number_first, TakesTwo, Spells, refused, refused_text};

use crate::numeral::number;
use crate::parts::Parts;
use faults::Refusal;
use std::fmt;

// A refusal as a line states it: `refused NUMBER PLACE CAUSE LAYER`. Numbers, since a line may state any.
#[derive(Clone, Copy, PartialEq, Eq)]
pub struct Refused {
    pub number: usize,
    pub place: usize,
    pub cause: usize,
    pub layer: usize,
}

impl Refused {
    // The refusal of a fault that has a cause of this number.
    pub fn with_cause(refusal: Refusal, cause: u8) -> Refused
        ensures { result ≡ refused refusal cause }
    {
        Refused {
            number: usize::from(refusal.number),
            place: refusal.place,
            cause: usize::from(cause),
            layer: usize::from(u8::from(refusal.layer)),
        }
    }
}

// Where a fault has no cause, that is 0.
impl From<Refusal> for Refused {
    ghost from_gives = { λ refusal r. r ≡ refused refusal 0 };

    fn from(refusal: Refusal) -> Refused {
        Refused::with_cause(refusal, 0)
    }
}

impl fmt::Display for Refused {
    ghost output = { λ r. Some (refused_text r) };

    fn fmt<W: fmt::Write>(&self, f: &mut fmt::Formatter<W>) -> fmt::Result {
        write!(
            f,
            "refused {} {} {} {}",
            self.number, self.place, self.cause, self.layer
        )
    }
}

// Takes the next word off, as a number.
pub fn next_number(words: &mut Parts<'_>) -> Option<usize>
    ensures value { result ≡ number_first (parts_left words.old) }
    ensures after { parts_left words.new ≡ drop 1 (parts_left words.old) }
{
    words.next().and_then(number)
}

// Takes the next two words off, as numbers.
fn next_two(words: &mut Parts<'_>) -> Option<(usize, usize)>
    ensures { TakesTwo (parts_left words.old) result (parts_left words.new) }
{
    let first = next_number(words)?;
    let second = next_number(words)?;
    Some((first, second))
}

// The refusal that the words left spell, all of them.
pub fn read_refusal(words: Parts<'_>) -> Option<Refused>
    ensures { MatchOption result ((x : Refused) → Spells (parts_left words.entry) x → ⊥) (Spells (parts_left words.entry)) }
{
    let mut rest = words;
    if !rest.next_is(b"refused") {
        return None;
    }
    let (number, place) = next_two(&mut rest)?;
    let (cause, layer) = next_two(&mut rest)?;
    if rest.next().is_some() {
        return None;
    }
    Some(Refused {
        number,
        place,
        cause,
        layer,
    })
}
