// The parts of a token, and writing them to lent memory.
ghost use Rattle.std.specs.Prelude.{◌≡◌, ℕ, ◌+◌, ◌%◌, ◌≤◌, ◌∷◌, ◌++◌, length, take};
ghost use Rattle.kinds.specs.Writing.{Written};
ghost use Rattle.numbers.specs.Reading.{minus_of, fraction, six_digits};

// The minus of a number below zero, and nothing of any other.
pub(crate) fn minus(z: i64) -> &'static str
    ensures { result.now ≡ minus_of z }
{
    if z < 0 { "-" } else { "" }
}

// How many bytes the minus of a number has.
pub(crate) fn minus_length(z: i64) -> usize
    ensures { result ≡ length (minus_of z) }
{
    minus(z).len()
}

// The last digit of a number.
fn last_digit(n: u64) -> u8
    ensures { result ≡ 48 + n % 10 }
{
    b'0' + (n % 10) as u8
}

// A point and the six digits of a part of a million. `itoa` writes no zeros in front.
pub(crate) fn pointed(part: u64) -> [u8; 7]
    ensures { result ≡ 0x2E ∷ six_digits part }
{
    [
        b'.',
        last_digit(part / 100_000),
        last_digit(part / 10_000),
        last_digit(part / 1_000),
        last_digit(part / 100),
        last_digit(part / 10),
        last_digit(part),
    ]
}

// How many bytes a point and so many of six digits have; where there are no digits there is no point.
pub(crate) fn fraction_length(places: u8) -> usize
    ensures is { (part : ℕ) → fraction places part ≡ take result (0x2E ∷ six_digits part) }
    ensures few { result ≤ 7 }
{
    if places == 0 {
        0
    } else {
        1 + usize::from(places).min(6)
    }
}

// Writes a token to the front of the memory, and answers how many bytes it is, or None where there is no room.
pub(crate) fn write_token(token: &[u8], out: &mut [u8]) -> Option<usize>
    ensures { Written token.now out.old out.new result }
{
    let (front, _) = out.split_at_mut_checked(token.len())?;
    front.copy_from_slice(token);
    Some(token.len())
}

// Copies bytes over memory of their length. Most parts of a token are empty, and then nothing is called.
fn copy_over(bytes: &[u8], out: &mut [u8])
    requires { length bytes.now ≡ length out.old }
    ensures { out.new ≡ bytes.now }
{
    if !bytes.is_empty() {
        out.copy_from_slice(bytes);
    }
}

// Writes a token by its three parts.
pub(crate) fn write_parts(
    minus: &[u8],
    ones: &[u8],
    fraction: &[u8],
    out: &mut [u8],
) -> Option<usize>
    requires { (length minus.now ≤ 1) × (length ones.now ≤ 40) × (length fraction.now ≤ 7) }
    ensures { Written (minus.now ++ (ones.now ++ fraction.now)) out.old out.new result }
{
    let length = minus.len() + ones.len() + fraction.len();
    let (front, _) = out.split_at_mut_checked(length)?;
    let (first, rest) = front.split_at_mut(minus.len());
    let (second, third) = rest.split_at_mut(ones.len());
    copy_over(minus, first);
    copy_over(ones, second);
    copy_over(fraction, third);
    Some(length)
}
