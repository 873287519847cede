// The sorts of case that a program runs.
ghost use Rattle.std.specs.Prelude.{◌≡◌, ℕ, ◌<◌, not, List, length, IfOk, string_bytes, Decides};
ghost use Rattle.std.specs.List.{slice_get};
ghost use Rattle.cases.specs.Lefts.{parts_left};

use cases::fault::LineFault;
use cases::parts::Parts;
use std::alloc::Global;

// A case that was run: what its line expects and what came, both as a line writes them.
#[derive(Drop)]
pub struct Case {
    pub expected: String,
    pub came: String,
}

impl Case {
    // Whether something else came than was expected.
    pub fn differs(&self) -> bool
        ensures { Decides (not result) (string_bytes self.now.expected ≡ string_bytes self.now.came) }
    {
        self.expected.as_str() != self.came.as_str()
    }
}

// A sort of case, by the first word of its lines.
pub trait Sort: Sized + Copy {
    // the sorts of the program, in the order of its report
    ghost sorts: { List Self };

    ghost word: { Self → List ℕ };

    // what is expected and what comes, of the words after the tag
    ghost comes: { Self → List (List ℕ) → List ℕ → List ℕ → Type 0 };

    // How many sorts there are. No slice of them: a program may work a sort out from its place.
    // One that has them in a slice implements `ListedSort`.
    fn count() -> usize
        ensures { (result ≡ length sorts) × (result < 256) };

    // The sort at a place of the report.
    fn at(place: usize) -> Option<Self>
        ensures { result ≡ slice_get sorts place };

    // The first word of its lines.
    fn name(self) -> &'static str
        ensures { result.now ≡ word self };

    // Runs a case, by the words after the tag.
    fn run(self, heap: Global, words: Parts<'_>) -> Result<Case, LineFault>
        ensures { IfOk result (λ c. comes self (parts_left words.entry) (string_bytes c.expected) (string_bytes c.came)) };
}
