// Sorts of case that stand in memory, all in one slice.
ghost use Rattle.std.specs.Prelude.{◌≡◌, ℕ, ◌<◌, List, length, IfOk, string_bytes};
ghost use Rattle.cases.specs.Lefts.{parts_left};

use crate::sort::{Case, Sort};
use cases::fault::LineFault;
use cases::parts::Parts;
use std::alloc::Global;

// A sort of case whose program holds all of its sorts, in the order of its report. Each such is a `Sort`: the slice
// tells how many there are, and the one at each place.
pub trait ListedSort: Sized + Copy {
    // the three as in `Sort`
    ghost sorts: { List Self };

    ghost word: { Self → List ℕ };

    ghost comes: { Self → List (List ℕ) → List ℕ → List ℕ → Type 0 };

    // All the sorts.
    fn all<'a>() -> &'a [Self]
    where
        Self: 'a,
        ensures { (result.now ≡ sorts) × (length result.now < 256) };

    // The first word of its lines.
    fn name(self) -> &'static str
        ensures { result.now ≡ word self };

    // Runs a case, by the words after the tag.
    fn run(self, heap: Global, words: Parts<'_>) -> Result<Case, LineFault>
        ensures { IfOk result (λ c. comes self (parts_left words.entry) (string_bytes c.expected) (string_bytes c.came)) };
}

impl<S: ListedSort> Sort for S {
    ghost sorts = { S.ListedSort.sorts };

    ghost word = { S.ListedSort.word };

    ghost comes = { S.ListedSort.comes };

    fn count() -> usize {
        S::all().len()
    }

    fn at(place: usize) -> Option<S> {
        S::all().get(place).copied()
    }

    fn name(self) -> &'static str {
        ListedSort::name(self)
    }

    fn run(self, heap: Global, words: Parts<'_>) -> Result<Case, LineFault> {
        ListedSort::run(self, heap, words)
    }
}
