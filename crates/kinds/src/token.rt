// Tokens without an exponent, taken apart.
ghost use Rattle.std.specs.Prelude.{◌≡◌, ◌≤◌, length};
ghost use Rattle.kinds.specs.Taking.{TakesApart, TakesAfter, TakesRest};
ghost use Rattle.numbers.specs.Grammar.{Digits};
ghost use Rattle.std.specs.List.{list_all};
ghost use Rattle.numbers.specs.Reading.{is_digit, digit_count, well_begun};
ghost use Rattle.numbers.specs.Values.{number as number_of};

// A token: whether it has a minus, the digits before the point and those after it.
#[derive(Clone, Copy)]
pub(crate) struct Plain<'a> {
    pub minus: bool,
    pub int: &'a [u8],
    pub places: &'a [u8],
}

// How many digits bytes begin with.
fn digit_count(bytes: &[u8]) -> usize
    ensures is { result ≡ digit_count bytes.now }
    ensures within { result ≤ length bytes.now }
{
    bytes.iter().take_while(|b| b.is_ascii_digit()).count()
}

// Whether digits can begin a number: there are some, and a zero comes first only where it is alone.
fn is_well_begun(digits: &[u8]) -> bool
    ensures { result ≡ well_begun digits.now }
{
    matches!(digits, [_] | [(b'1'..), ..])
}

// Whether bytes are digits alone.
fn are_digits(bytes: &[u8]) -> bool
    ensures { result ≡ list_all is_digit bytes.now }
{
    bytes.iter().all(u8::is_ascii_digit)
}

// The token of these digits, and of what follows them: nothing, or a point and digits.
fn with_rest<'a>(minus: bool, int: &'a [u8], rest: &'a [u8]) -> Option<Plain<'a>>
    ensures { TakesRest minus int.now rest.now result }
{
    if !is_well_begun(int) {
        return None;
    }
    match rest {
        [] => Some(Plain {
            minus,
            int,
            places: rest,
        }),
        [b'.', places @ ..] if !places.is_empty() && are_digits(places) => Some(Plain {
            minus,
            int,
            places,
        }),
        _ => None,
    }
}

// The token of bytes that follow a minus, or that begin without one.
fn after_minus(minus: bool, bytes: &[u8]) -> Option<Plain<'_>>
    ensures { TakesAfter minus bytes.now result }
{
    let (int, rest) = bytes.split_at(digit_count(bytes));
    with_rest(minus, int, rest)
}

// Takes a token without an exponent apart, or answers None where bytes are no such token.
pub(crate) fn take_apart(token: &[u8]) -> Option<Plain<'_>>
    ensures { TakesApart token.now result }
{
    match token {
        [b'-', rest @ ..] => after_minus(true, rest),
        _ => after_minus(false, token),
    }
}

// The number that digits write.
pub(crate) fn number_of(digits: &[u8]) -> u64
    requires { (Digits digits.now) × (length digits.now ≤ 18) }
    ensures { result ≡ number_of digits.now }
{
    digits.iter().fold(0, |n, d| n * 10 + u64::from(*d - b'0'))
}
