// Masks: `*` stands for any run of bytes, also none, `?` for any one byte, every other byte for itself.
ghost use Rattle.dialects.specs.Masks.{mask_holds};

use crate::list::PatternList;
use crate::matcher::mask_matches;
use crate::syntax::Syntax;

// The masks of a file.
pub type Masks<'a> = PatternList<'a, Wildcards>;

// The syntax of masks.
#[derive(Clone, Copy)]
pub struct Wildcards;

impl Syntax for Wildcards {
    ghost TAG = { 5 };

    ghost matched = { mask_holds };

    const TAG: u8 = 5;

    fn matches(pattern: &[u8], text: &[u8]) -> bool {
        mask_matches(pattern, text)
    }
}
