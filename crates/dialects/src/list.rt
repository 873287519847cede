// Patterns by number, as they stand in a file.
ghost use Rattle.std.specs.Prelude.{◌≡◌};
ghost use Rattle.dialects.specs.Dialects.{part_count, listed_holds, Finds};
ghost use Rattle.std.proofs.Common.{rules};

use crate::dialect::{BoundedDialect, Dialect};
use crate::limits::MOST_PATTERNS;
use crate::syntax::Syntax;
use fields::part::Part;
use std::marker::PhantomData;

// A file's bytes and the part of them that each pattern is. A part that reaches past the file is cut there.
#[derive(Clone, Copy)]
pub struct PatternList<'a, S> {
    file: &'a [u8],
    parts: &'a [Part],
    syntax: PhantomData<S>,
}

impl<'a, S> PatternList<'a, S> {
    // Looks at a file through any parts.
    pub fn new(file: &'a [u8], parts: &'a [Part]) -> PatternList<'a, S>
        ensures { (result.file.now ≡ file.now) × (result.parts.now ≡ parts.now) }
    {
        PatternList {
            file,
            parts,
            syntax: PhantomData,
        }
    }

    // How many patterns there are: one for each part, up to the greatest count.
    fn count(&self) -> usize
        ensures { result ≡ part_count self.now.parts.now }
    {
        self.parts.len().min(MOST_PATTERNS)
    }

    // The bytes of a pattern, if there is one of this number.
    fn get(&self, pattern: usize) -> Option<&'a [u8]>
        ensures { Finds self.now.file.now self.now.parts.now pattern result }
    {
        self.parts[..self.count()]
            .get(pattern)
            .map(|part| part.of(self.file))
    }
}

impl<'a, S: Syntax> Dialect for PatternList<'a, S> {
    ghost count = { λ d. part_count d.parts.now };

    ghost holds = { λ d. listed_holds S.Syntax.matched d.file.now d.parts.now };

    fn pattern_count(&self) -> usize {
        self.count()
    }

    fn is_match(&self, pattern: usize, text: &[u8]) -> bool {
        self.get(pattern)
            .is_some_and(|bytes| S::matches(bytes, text))
    }
}

impl<'a, S: Syntax> BoundedDialect for PatternList<'a, S> {
    ghost few = { λ d. Prim.search rules };
}
