// The number kinds, as words of a line.
ghost use Rattle.cases.specs.Lefts.{parts_left};
ghost use Rattle.cases_runs.specs.Kinds.{TakesKind};

use crate::words::take_word;
use cases::fault::LineFault;
use cases::parts::Parts;

#[derive(Clone, Copy)]
pub enum NumberKind {
    Whole,
    Decimal,
}

// Takes the next word off, as a kind: `whole` or `decimal`. Not a match: an arm knows its word letter by letter alone.
pub fn take_kind(words: &mut Parts<'_>) -> Result<NumberKind, LineFault>
    ensures { TakesKind (parts_left words.old) result (parts_left words.new) }
{
    let word = take_word(words)?;
    if word == b"whole".as_slice() {
        Ok(NumberKind::Whole)
    } else if word == b"decimal".as_slice() {
        Ok(NumberKind::Decimal)
    } else {
        Err(LineFault::Unreadable)
    }
}
