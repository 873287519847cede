// Signed numbers: a magnitude with its sign, and multiples.
ghost use Rattle.std.specs.Prelude.{◌≡◌, ◌^◌, ◌<◌, Decides};
ghost use Rattle.numbers.specs.Laws.{Multiple};
ghost use Rattle.numbers.specs.Reading.{signed_if, divides};

// A magnitude with its sign.
pub(crate) fn signed(minus: bool, n: u64) -> i64
    requires { n < 2 ^ 63 }
    ensures { result ≡ signed_if minus n }
{
    let z = n as i64;
    if minus { -z } else { z }
}

// Whether x is some whole number times q; zero is so of itself alone.
pub(crate) fn is_multiple(x: i64, q: i64) -> bool
    ensures is { result ≡ divides x q }
    ensures times { Decides result (Multiple x q) }
{
    x.unsigned_abs().is_multiple_of(q.unsigned_abs())
}
