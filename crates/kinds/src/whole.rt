// Whole numbers: no point, no exponent, and a magnitude of at most 10^15.
ghost use Rattle.std.specs.Prelude.{◌≡◌, Decides, refl};
ghost use Rattle.kinds.specs.Wholes.{whole_kind, value};
ghost use Rattle.numbers.specs.Laws.{Multiple};
ghost use Rattle.numbers.specs.Kinds.{Kept, ReadsValue};
ghost use Rattle.numbers.specs.Values.{MeansWhole};
ghost use Rattle.kinds.specs.Laws.{whole_laws};

use crate::integer::{is_multiple, signed};
use crate::number::Number;
use crate::token::{number_of, take_apart};
use crate::writing::write_token;
use itoa::Buffer;
use std::cmp::Ordering;

// the greatest magnitude
const GREATEST: u64 = 1_000_000_000_000_000;

// What this kind and the decimals have alike are single lines of the trait; value, token and writing differ.
#[derive(Clone, Copy)]
pub struct Whole {
    value: i64,
}

impl Number for Whole {
    ghost kind = { whole_kind };

    const LONGEST: usize = 17;

    ghost LONGEST = { 17 };

    ghost limit = { refl };

    ghost turns = { whole_laws.turns };

    ghost levels = { whole_laws.levels };

    ghost tokens = { whole_laws.reads_tokens };

    ghost nought = { whole_laws.reads_zero };

    ghost back = { whole_laws.writes_back };

    fn from_token(token: &[u8]) -> Option<Whole>
        ensures is { result ≡ whole_kind.read token.now }
        ensures means { ReadsValue MeansWhole value token.now result }
        ensures kept { Kept whole_kind token.now result }
    {
        whole_of(token)
    }

    fn zero() -> Whole {
        Whole { value: 0 }
    }

    fn compare(self, other: Whole) -> Ordering {
        self.value.cmp(&other.value)
    }

    fn is_multiple_of(self, other: Whole) -> bool
        ensures is { result ≡ whole_kind.multiple self other }
        ensures times { Decides result (Multiple self.value other.value) }
    {
        is_multiple(self.value, other.value)
    }

    fn token_length(self) -> usize {
        Buffer::new().format(self.value).len()
    }

    fn write(self, out: &mut [u8]) -> Option<usize> {
        let mut buffer = Buffer::new();
        write_token(buffer.format(self.value).as_bytes(), out)
    }
}

// The whole number that a token stands for.
fn whole_of(token: &[u8]) -> Option<Whole>
    ensures { result ≡ whole_kind.read token.now }
{
    let plain = take_apart(token)?;
    if !plain.places.is_empty() || plain.int.len() > 16 {
        return None;
    }
    let magnitude = number_of(plain.int);
    if magnitude > GREATEST {
        return None;
    }
    Some(Whole {
        value: signed(plain.minus, magnitude),
    })
}
