// Bytes written as a word: `-` for none, else pieces joined by `.`. A piece is pairs of lower-case hexadecimal
// digits, and with `*` and a count after them they are repeated: `5b.31*3` is `[111`.
ghost use Rattle.std.specs.Prelude.{◌≡◌, ◌<◌, ◌≤◌, ◌++◌, length, IfOk, Some, vec_items, vec_len, string_bytes};
ghost use Rattle.cases.specs.Splits.{split};
ghost use Rattle.cases.specs.Bytes.{longest, both, times, hex_digit, byte_of, hex_bytes, piece_bytes, pieces_bytes, limited, bytes_of, hex_char, hex_text, shown};
ghost use Rattle.cases.specs.Read.{Reads, Grows};

use crate::fault::LineFault;
use crate::numeral::number;
use crate::parts::Parts;
use std::alloc::{AllocError, Global};

// At most so many bytes come of one word, so that no count leads to an endless run.
const LONGEST: usize = 1048576;

// The value of a lower-case hexadecimal digit; `to_digit` takes upper case too.
fn digit(code: u8) -> Option<u8>
    ensures { result ≡ hex_digit code }
{
    match code {
        b'0'..=b'9' => Some(code - b'0'),
        b'a'..=b'f' => Some(code - b'a' + 10),
        _ => None,
    }
}

// The byte that two digits write.
fn byte(high: u8, low: u8) -> Option<u8>
    ensures { result ≡ byte_of high low }
{
    Some(digit(high)? * 16 + digit(low)?)
}

// The bytes of one pair of digits or more.
fn hex(heap: Global, digits: &[u8]) -> Result<Vec<u8>, LineFault>
    ensures { Reads (hex_bytes digits.now) result }
{
    let (pairs, rest) = digits.as_chunks::<2>();
    if pairs.is_empty() || !rest.is_empty() {
        return Err(LineFault::Unreadable);
    }
    let mut bytes = Vec::new(heap);
    for [high, low] in pairs {
        bytes.push(byte(*high, *low).ok_or(LineFault::Unreadable)?)?;
    }
    Ok(bytes)
}

// Adds the bytes, so many times over.
fn push_times(out: &mut Vec<u8>, bytes: &[u8], count: usize) -> Result<(), LineFault>
    requires { vec_len out.old ≤ longest }
    ensures { Grows (Some (vec_items out.old ++ times count bytes.now)) result out.new }
{
    for _turn in 0..count {
        if bytes.len() > LONGEST - out.len() {
            return Err(LineFault::Unreadable);
        }
        out.extend_from_slice(bytes)?;
    }
    Ok(())
}

// Adds the bytes of a piece.
fn push_piece(heap: Global, out: &mut Vec<u8>, piece: &[u8]) -> Result<(), LineFault>
    requires { vec_len out.old ≤ longest }
    ensures { Grows (both (Some (vec_items out.old)) (piece_bytes (split 42 piece.now))) result out.new }
{
    let mut parts = Parts::new(piece, b'*');
    let digits = parts.next().ok_or(LineFault::Unreadable)?;
    let bytes = hex(heap, digits)?;
    let count = parts.next().map_or(Some(1), number);
    if parts.next().is_some() {
        return Err(LineFault::Unreadable);
    }
    push_times(out, bytes.as_slice(), count.ok_or(LineFault::Unreadable)?)
}

// The bytes of pieces joined by `.`.
fn read_pieces(heap: Global, word: &[u8]) -> Result<Vec<u8>, LineFault>
    ensures { Reads (limited (pieces_bytes (split 46 word.now))) result }
{
    let mut bytes = Vec::new(heap);
    for piece in Parts::new(word, b'.') {
        push_piece(heap, &mut bytes, piece)?;
    }
    Ok(bytes)
}

// The bytes that a word writes.
pub fn read_bytes(heap: Global, word: &[u8]) -> Result<Vec<u8>, LineFault>
    ensures { Reads (bytes_of word.now) result }
{
    if word == b"-".as_slice() {
        return Ok(Vec::new(heap));
    }
    read_pieces(heap, word)
}

// The character of a hexadecimal digit.
fn hex_char(digit: u8) -> char
    requires { digit < 16 }
    ensures { (result ≡ hex_char digit) × (result < 128) }
{
    char::from(b"0123456789abcdef"[usize::from(digit)])
}

// Two digits for each byte. Not by `{b:02x}`, which takes several times as long.
fn hex_text(heap: Global, bytes: &[u8]) -> Result<String, AllocError>
    ensures { IfOk result (λ s. string_bytes s ≡ hex_text bytes.now) }
{
    let mut text = String::new(heap);
    for b in bytes {
        text.push(hex_char(*b / 16))?;
        text.push(hex_char(*b % 16))?;
    }
    Ok(text)
}

// Bytes as a word of one piece, which reads back as those bytes.
pub fn show_bytes(heap: Global, bytes: &[u8]) -> Result<String, AllocError>
    ensures value { IfOk result (λ s. string_bytes s ≡ shown bytes.now) }
    ensures law { length bytes.now ≤ longest → bytes_of (shown bytes.now) ≡ Some bytes.now }
{
    if bytes.is_empty() {
        return String::from_str(heap, "-");
    }
    hex_text(heap, bytes)
}
