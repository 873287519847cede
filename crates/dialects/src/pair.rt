// Two dialects side by side.
ghost use Rattle.dialects.specs.Dialects.{pair_count, pair_holds};
ghost use Rattle.std.proofs.Common.{rules};

use crate::dialect::{BoundedDialect, Dialect};
use crate::limits::MOST_PATTERNS;

// The first dialect's patterns keep their numbers, the second's follow them.
#[derive(Clone, Copy)]
pub struct Pair<F, S> {
    pub first: F,
    pub second: S,
}

impl<F: Dialect, S: Dialect> Dialect for Pair<F, S> {
    ghost count = { λ d. pair_count (F.Dialect.count d.first) (S.Dialect.count d.second) };

    ghost holds = { λ d. pair_holds (F.Dialect.count d.first) (F.Dialect.holds d.first) (S.Dialect.holds d.second) };

    fn pattern_count(&self) -> usize {
        (self.first.pattern_count() + self.second.pattern_count()).min(MOST_PATTERNS)
    }

    fn is_match(&self, pattern: usize, text: &[u8]) -> bool {
        let before = self.first.pattern_count();
        if pattern < before {
            return self.first.is_match(pattern, text);
        }
        if pattern >= MOST_PATTERNS {
            return false;
        }
        self.second.is_match(pattern - before, text)
    }
}

impl<F: Dialect, S: Dialect> BoundedDialect for Pair<F, S> {
    ghost few = { λ d. Prim.search rules };
}
