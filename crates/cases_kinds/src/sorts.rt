// The sorts of case, and what a line of each comes to.
ghost use Rattle.std.specs.Prelude.{IfOk, string_bytes};
ghost use Rattle.cases.specs.Lefts.{parts_left};
ghost use Rattle.cases_kinds.specs.Lines.{sorts, sort_word, ReadsToken, ComparesTokens, ComesBy, Comes};

use crate::answers::{comparing, reading};
use cases::fault::LineFault;
use cases::parts::Parts;
use cases_runs::kind::{NumberKind, take_kind};
use cases_runs::sort::{Case, Sort};
use cases_runs::words::{rest_of, take_bytes, take_word};
use kinds::decimal::Decimal;
use kinds::number::Number;
use kinds::whole::Whole;
use std::alloc::Global;

#[derive(Clone, Copy)]
pub enum KindSort {
    // a token is read, and the number written
    Number,
    // two numbers are compared
    Compare,
}

// Reads a token, by the words `BYTES OUTCOME`.
fn run_number<K: Number>(heap: Global, words: Parts<'_>) -> Result<Case, LineFault>
    ensures { IfOk result (λ c. ReadsToken K.Number.kind (parts_left words.entry) (string_bytes c.expected) (string_bytes c.came)) }
{
    let mut rest = words;
    let token = take_bytes(heap, &mut rest)?;
    Ok(Case {
        expected: rest_of(heap, rest)?,
        came: reading::<K>(heap, token.as_slice())?,
    })
}

// Compares two numbers, by the words `A B ANSWER MULTIPLE`.
fn run_compare<K: Number>(heap: Global, words: Parts<'_>) -> Result<Case, LineFault>
    ensures { IfOk result (λ c. ComparesTokens K.Number.kind (parts_left words.entry) (string_bytes c.expected) (string_bytes c.came)) }
{
    let mut rest = words;
    let a = take_word(&mut rest)?;
    let b = take_word(&mut rest)?;
    Ok(Case {
        expected: rest_of(heap, rest)?,
        came: comparing::<K>(heap, a, b)?,
    })
}

impl KindSort {
    // Runs a case by the numbers of one kind.
    fn run_by<K: Number>(self, heap: Global, words: Parts<'_>) -> Result<Case, LineFault>
        ensures { IfOk result (λ c. ComesBy K.Number.kind self (parts_left words.entry) (string_bytes c.expected) (string_bytes c.came)) }
    {
        match self {
            KindSort::Number => run_number::<K>(heap, words),
            KindSort::Compare => run_compare::<K>(heap, words),
        }
    }
}

// In the order of the report.
const SORTS: [KindSort; 2] = [KindSort::Number, KindSort::Compare];

impl Sort for KindSort {
    ghost sorts = { sorts };

    ghost word = { sort_word };

    ghost comes = { Comes };

    fn count() -> usize {
        SORTS.len()
    }

    fn at(place: usize) -> Option<KindSort> {
        SORTS.get(place).copied()
    }

    fn name(self) -> &'static str {
        match self {
            KindSort::Number => "number",
            KindSort::Compare => "compare",
        }
    }

    // The words are `KIND ..`.
    fn run(self, heap: Global, words: Parts<'_>) -> Result<Case, LineFault> {
        let mut rest = words;
        match take_kind(&mut rest)? {
            NumberKind::Whole => self.run_by::<Whole>(heap, rest),
            NumberKind::Decimal => self.run_by::<Decimal>(heap, rest),
        }
    }
}
