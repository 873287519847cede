// What a dialect is.
ghost use Rattle.std.specs.Prelude.{◌≡◌, ℕ, ◌≤◌, Bool, List};
ghost use Rattle.dialects.specs.Dialects.{answer};

// A dialect gives patterns numbers from 0 on. It means a count of patterns, and a set of strings for each.
pub trait Dialect {
    ghost count: { Self → ℕ };

    ghost holds: { Self → ℕ → List ℕ → Bool };

    // How many patterns there are.
    fn pattern_count(&self) -> usize
        ensures { (result ≡ count self.now) × (result ≤ 65535) };

    // Whether a string is in the set of a pattern; past the count no set holds any.
    fn is_match(&self, pattern: usize, text: &[u8]) -> bool
        ensures { result ≡ answer (count self.now) (holds self.now) pattern text.now };
}

// A dialect of which a proof knows without a call that its count fits two bytes. It is no law of every dialect: a law
// is owed at every number, also one that does not fit the field that holds the count, unless the type itself says so.
pub trait BoundedDialect: Dialect {
    ghost few: { (d : Self) → Self.Dialect.count d ≤ 65535 };
}
