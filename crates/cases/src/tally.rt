// The count of the cases that a program ran, and of those that differ.
ghost use Rattle.std.specs.Prelude.{◌≡◌, Some};
ghost use Rattle.cases.specs.Tallies.{no_cases, counted, together, tally_line};

use std::fmt;

// How many cases of a sort there were, and how many of them came out otherwise than expected.
#[derive(Clone, Copy, Default)]
pub struct Tally {
    pub cases: usize,
    pub differing: usize,
}

impl Tally {
    // Before the first case.
    pub fn new() -> Tally
        ensures { result ≡ no_cases }
    {
        Tally::default()
    }

    // Counts one case more.
    pub fn count(&mut self, differs: bool)
        ensures { self.new ≡ counted self.old differs }
    {
        self.cases = self.cases.saturating_add(1);
        if differs {
            self.differing = self.differing.saturating_add(1);
        }
    }

    // The cases of both. No `+`: the sum stays at the largest number.
    pub fn with(self, other: Tally) -> Tally
        ensures { result ≡ together self other }
    {
        Tally {
            cases: self.cases.saturating_add(other.cases),
            differing: self.differing.saturating_add(other.differing),
        }
    }
}

// `N cases, M differ`
impl fmt::Display for Tally {
    ghost output = { λ t. Some (tally_line t) };

    fn fmt<W: fmt::Write>(&self, f: &mut fmt::Formatter<W>) -> fmt::Result {
        let cases = self.cases;
        let differing = self.differing;
        write!(f, "{cases} cases, {differing} differ")
    }
}
