// What a kind answers of tokens, as a line states it.
ghost use Rattle.std.specs.Prelude.{◌≡◌, IfOk, string_bytes};
ghost use Rattle.cases_kinds.specs.Answers.{side_word, multiple_word, sign_word, reading_text, Compares};
ghost use Rattle.kinds.specs.Causes.{outcome};
ghost use Rattle.numbers.specs.Kinds.{above_zero};

use cases::fault::LineFault;
use kinds::number::{Number, read_number};
use std::alloc::Global;
use std::cmp::Ordering;
use std::str::from_utf8;

// More bytes than the longest token of any kind has.
const ROOM: usize = 32;

// `before`, `level` or `after`. The words of a line are functions: `Ordering` is the library's, and the others have no type of their own.
fn side(order: Ordering) -> &'static str
    ensures { result.now ≡ side_word order }
{
    match order {
        Ordering::Less => "before",
        Ordering::Equal => "level",
        Ordering::Greater => "after",
    }
}

// Whether a number is above zero: `p` or `z`.
fn sign<K: Number>(x: K) -> &'static str
    ensures { result.now ≡ sign_word (above_zero K.Number.kind x) }
{
    if x.is_positive() { "p" } else { "z" }
}

// Whether x is a multiple of q: `y` or `n`, and `-` where q is not above zero.
fn multiple<K: Number>(x: K, q: K) -> &'static str
    ensures { result.now ≡ multiple_word K.Number.kind x q }
{
    if !q.is_positive() {
        return "-";
    }
    if x.is_multiple_of(q) { "y" } else { "n" }
}

// The token of a number.
fn token_text<K: Number>(heap: Global, x: K) -> Result<String, LineFault>
    ensures { IfOk result (λ s. string_bytes s ≡ K.Number.kind.written x) }
{
    let mut memory = [0_u8; ROOM];
    let length = x.write(&mut memory).ok_or(LineFault::Unreadable)?;
    let token = from_utf8(&memory[..length])?;
    Ok(String::from_str(heap, token)?)
}

// What reading a token comes to: `ok WRITTEN SIGN`, or `outside CAUSE`.
pub(crate) fn reading<K: Number>(heap: Global, token: &[u8]) -> Result<String, LineFault>
    ensures { IfOk result (λ s. string_bytes s ≡ reading_text K.Number.kind (outcome K.Number.kind token.now)) }
{
    match read_number::<K>(token) {
        Ok(x) => {
            let written = token_text(heap, x)?;
            let sign = sign(x);
            Ok(format!(in heap; "ok {written} {sign}")?)
        }
        Err(cause) => {
            let number = u8::from(cause);
            Ok(format!(in heap; "outside {number}")?)
        }
    }
}

// How two numbers compare, and whether the first is a multiple of the second: `SIDE MULTIPLE`.
pub(crate) fn comparing<K: Number>(heap: Global, x: &[u8], y: &[u8]) -> Result<String, LineFault>
    ensures { IfOk result (λ s. Compares K.Number.kind (outcome K.Number.kind x.now) (outcome K.Number.kind y.now) (string_bytes s)) }
{
    let x = read_number::<K>(x).map_err(|_| LineFault::Unreadable)?;
    let y = read_number::<K>(y).map_err(|_| LineFault::Unreadable)?;
    let side = side(x.compare(y));
    let multiple = multiple(x, y);
    Ok(format!(in heap; "{side} {multiple}")?)
}
