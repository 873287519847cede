// Names: each pattern is matched by exactly its own bytes.
ghost use Rattle.std.specs.Str.{bytes_eq};

use crate::list::PatternList;
use crate::syntax::Syntax;

// The names of a file.
pub type Names<'a> = PatternList<'a, Exact>;

// The syntax of names.
#[derive(Clone, Copy)]
pub struct Exact;

impl Syntax for Exact {
    ghost TAG = { 4 };

    ghost matched = { bytes_eq };

    const TAG: u8 = 4;

    fn matches(pattern: &[u8], text: &[u8]) -> bool {
        pattern == text
    }
}
