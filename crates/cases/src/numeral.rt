// Decimal numbers.
ghost use Rattle.std.specs.Prelude.{◌≡◌, ◌≢◌, slice_index};
ghost use Rattle.cases.specs.Numbers.{number_of};

use std::str;

// The number that a word with no `+` before it writes.
fn unsigned(word: &[u8]) -> Option<usize>
    requires { slice_index word.now 0 ≢ 43 }
    ensures { result ≡ number_of word.now }
{
    str::from_utf8(word).ok()?.parse().ok()
}

// The number that a word of decimal digits writes, if it fits. There is no sign, and zeros may lead.
pub fn number(word: &[u8]) -> Option<usize>
    ensures { result ≡ number_of word.now }
{
    match word {
        [] => None,
        [b'+', ..] => None,
        _ => unsigned(word),
    }
}
