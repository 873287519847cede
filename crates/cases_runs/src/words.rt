// The words of a line, taken off one by one.
ghost use Rattle.std.specs.Prelude.{◌≡◌, ◌++◌, IfOk, string_bytes, OnOk};
ghost use Rattle.cases.specs.Lefts.{parts_left};
ghost use Rattle.cases.specs.Splits.{joined_by};
ghost use Rattle.cases_runs.specs.Words.{TakesWord, TakesNumber, TakesBytes};

use cases::bytes::read_bytes;
use cases::fault::LineFault;
use cases::outcome::next_number;
use cases::parts::Parts;
use std::alloc::Global;
use std::str::from_utf8;

// Takes the next word off.
pub fn take_word<'a>(words: &mut Parts<'a>) -> Result<&'a [u8], LineFault>
    ensures { TakesWord (parts_left words.old) result (parts_left words.new) }
{
    words.next().ok_or(LineFault::Unreadable)
}

// Takes the next word off, as a number.
pub fn take_number(words: &mut Parts<'_>) -> Result<usize, LineFault>
    ensures { TakesNumber (parts_left words.old) result (parts_left words.new) }
{
    next_number(words).ok_or(LineFault::Unreadable)
}

// Takes the next word off, as bytes.
pub fn take_bytes(heap: Global, words: &mut Parts<'_>) -> Result<Vec<u8>, LineFault>
    ensures { TakesBytes (parts_left words.old) result (parts_left words.new) }
{
    read_bytes(heap, take_word(words)?)
}

// Adds a word to a text.
fn push_word(text: &mut String, word: &[u8]) -> Result<(), LineFault>
    ensures { OnOk result (string_bytes text.new ≡ string_bytes text.old ++ word.now) }
{
    text.push_str(from_utf8(word)?)?;
    Ok(())
}

// The words that are left, parted by one blank each.
pub fn rest_of(heap: Global, words: Parts<'_>) -> Result<String, LineFault>
    ensures { IfOk result (λ s. string_bytes s ≡ joined_by 32 (parts_left words.entry)) }
{
    let mut rest = words;
    let mut text = String::new(heap);
    push_word(&mut text, take_word(&mut rest)?)?;
    for word in rest {
        text.push_str(" ")?;
        push_word(&mut text, word)?;
    }
    Ok(text)
}
