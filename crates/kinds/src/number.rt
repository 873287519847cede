// What a number kind is, and how a number is read from a token.
ghost use Rattle.std.specs.Prelude.{◌≡◌, ℕ, length};
ghost use Rattle.kinds.specs.Causes.{cause_number, outcome, outcome_at, ReadsBack};
ghost use Rattle.kinds.specs.Writing.{Written};
ghost use Rattle.numbers.specs.Kinds.{Kind, Turns, Levels, ReadsTokens, ReadsZero, WritesBack, above_zero};

use std::cmp::Ordering;

// Why a token is not read.
#[derive(Clone, Copy, PartialEq, Eq, Debug)]
pub enum Cause {
    // more bytes than the kind's longest token has
    TooLong,
    // no JSON number token, or none that the kind has a value for
    Unsuited,
}

// A token that is not read, by the place where it stands.
#[derive(Clone, Copy, PartialEq, Eq, Debug)]
pub struct NumberFault {
    pub place: usize,
    pub cause: Cause,
}

// The number by which a cause is reported.
impl From<Cause> for u8 {
    ghost from_gives = { λ cause number. number ≡ cause_number cause };

    fn from(cause: Cause) -> u8 {
        match cause {
            Cause::TooLong => 1,
            Cause::Unsuited => 2,
        }
    }
}

// A kind of numbers. `kind` is its meaning, and the laws hold of it.
pub trait Number: Sized + Copy {
    ghost kind: { Kind Self };

    // the longest token that the kind reads, in bytes
    const LONGEST: usize;

    ghost LONGEST: { ℕ };

    // The value that a token stands for, if the kind has one.
    fn from_token(token: &[u8]) -> Option<Self>
        ensures { result ≡ kind.read token.now };

    // The zero that the laws speak of. `Default` would not say which value it is.
    fn zero() -> Self
        ensures { result ≡ kind.zero };

    // How this value stands to another: before it, level with it, or after it. Level values may differ, as 1.0 and 1.00 do, so this is no `Ord`.
    fn compare(self, other: Self) -> Ordering
        ensures { result ≡ kind.compare self other };

    // Whether this value is some whole number times another.
    fn is_multiple_of(self, other: Self) -> bool
        ensures { result ≡ kind.multiple self other };

    // Whether this value is above zero.
    fn is_positive(self) -> bool
        ensures { result ≡ above_zero kind self }
    {
        self.compare(Self::zero()).is_gt()
    }

    // How many bytes the token of this value has.
    fn token_length(self) -> usize
        ensures { result ≡ length (kind.written self) };

    // Writes the token of this value to the front of the memory and answers its length, or None where there is no room.
    fn write(self, out: &mut [u8]) -> Option<usize>
        ensures { Written (kind.written self) out.old out.new result };

    // the constant is the longest that the meaning names
    ghost limit: { LONGEST ≡ kind.longest };

    // comparing the other way round gives the turned answer
    ghost turns: { Turns kind };

    // level values compare alike with any third
    ghost levels: { Levels kind };

    // only JSON number tokens are read
    ghost tokens: { ReadsTokens kind };

    // the token `0` stands for the zero
    ghost nought: { ReadsZero kind };

    // a read value, written, is a JSON number token of at most the longest length and reads back as itself
    ghost back: { WritesBack kind };
}

// Reads a number of the kind; a token that is too long is refused before the kind looks at it.
// What is read, written and read again, is itself.
pub fn read_number<K: Number>(token: &[u8]) -> Result<K, Cause>
    ensures is { result ≡ outcome K.Number.kind token.now }
    ensures back { ReadsBack K.Number.kind result }
{
    if token.len() > K::LONGEST {
        return Err(Cause::TooLong);
    }
    K::from_token(token).ok_or(Cause::Unsuited)
}

// Reads a number of the kind from the token at this place.
pub fn read_number_at<K: Number>(token: &[u8], place: usize) -> Result<K, NumberFault>
    ensures { result ≡ outcome_at place (outcome K.Number.kind token.now) }
{
    read_number(token).map_err(|cause| NumberFault { place, cause })
}
