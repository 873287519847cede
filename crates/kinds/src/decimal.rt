// Decimals: no exponent, at most 12 digits in all, and at most 6 of them after the point.
ghost use Rattle.std.specs.Prelude.{◌≡◌, ◌^◌, ◌<◌, ◌≤◌, length, Decides, refl};
ghost use Rattle.kinds.specs.Decimals.{decimal_kind, as_fixed};
ghost use Rattle.numbers.specs.Grammar.{Digits};
ghost use Rattle.numbers.specs.Kinds.{Kept, ReadsValue};
ghost use Rattle.numbers.specs.Laws.{Multiple};
ghost use Rattle.numbers.specs.Values.{MeansDecimal, in_millionths};
ghost use Rattle.kinds.specs.Laws.{decimal_laws};

use crate::integer::{is_multiple, signed};
use crate::number::Number;
use crate::token::{number_of, take_apart};
use crate::writing::{fraction_length, minus, minus_length, pointed, write_parts};
use itoa::Buffer;
use std::cmp::Ordering;

const MILLION: u64 = 1_000_000;

// A decimal, counted in millionths; it is written with as many places as it was read with.
#[derive(Clone, Copy)]
pub struct Decimal {
    millionths: i64,
    places: u8,
}

impl Number for Decimal {
    ghost kind = { decimal_kind };

    const LONGEST: usize = 14;

    ghost LONGEST = { 14 };

    ghost limit = { refl };

    ghost turns = { decimal_laws.turns };

    ghost levels = { decimal_laws.levels };

    ghost tokens = { decimal_laws.reads_tokens };

    ghost nought = { decimal_laws.reads_zero };

    ghost back = { decimal_laws.writes_back };

    fn from_token(token: &[u8]) -> Option<Decimal>
        ensures is { result ≡ decimal_kind.read token.now }
        ensures means { ReadsValue MeansDecimal as_fixed token.now result }
        ensures kept { Kept decimal_kind token.now result }
    {
        decimal_of(token)
    }

    fn zero() -> Decimal {
        Decimal {
            millionths: 0,
            places: 0,
        }
    }

    fn compare(self, other: Decimal) -> Ordering {
        self.millionths.cmp(&other.millionths)
    }

    fn is_multiple_of(self, other: Decimal) -> bool
        ensures is { result ≡ decimal_kind.multiple self other }
        ensures times { Decides result (Multiple self.millionths other.millionths) }
    {
        is_multiple(self.millionths, other.millionths)
    }

    fn token_length(self) -> usize {
        let ones = self.millionths.unsigned_abs() / MILLION;
        minus_length(self.millionths)
            + Buffer::new().format(ones).len()
            + fraction_length(self.places)
    }

    fn write(self, out: &mut [u8]) -> Option<usize> {
        let magnitude = self.millionths.unsigned_abs();
        let mut buffer = Buffer::new();
        let ones = buffer.format(magnitude / MILLION);
        // of a number without places no digits are made that nobody sees
        if self.places == 0 {
            return write_parts(minus(self.millionths).as_bytes(), ones.as_bytes(), &[], out);
        }
        let fraction = pointed(magnitude % MILLION);
        write_parts(
            minus(self.millionths).as_bytes(),
            ones.as_bytes(),
            &fraction[..fraction_length(self.places)],
            out,
        )
    }
}

// The decimal that a token stands for.
fn decimal_of(token: &[u8]) -> Option<Decimal>
    ensures { result ≡ decimal_kind.read token.now }
{
    let plain = take_apart(token)?;
    let places = plain.places.len();
    if plain.int.len() + places > 12 || places > 6 {
        return None;
    }
    let magnitude = in_millionths(plain.int, plain.places);
    Some(Decimal {
        millionths: signed(plain.minus, magnitude),
        places: places as u8,
    })
}

// Digits before and after the point, in millionths.
fn in_millionths(int: &[u8], places: &[u8]) -> u64
    requires { Digits int.now × Digits places.now × (length int.now ≤ 12) × (length places.now ≤ 6) }
    ensures is { result ≡ in_millionths int.now places.now }
    ensures small { result < 2 ^ 63 }
{
    let scale = 10_u64.pow(6 - places.len() as u32);
    number_of(int) * MILLION + number_of(places) * scale
}
