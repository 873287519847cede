// What a pattern of a file means.
ghost use Rattle.std.specs.Prelude.{◌≡◌, ℕ, Bool, List};

// A syntax says which strings a pattern of these bytes matches. Its files have a tag of their own.
pub trait Syntax {
    ghost TAG: { ℕ };

    ghost matched: { List ℕ → List ℕ → Bool };

    const TAG: u8;

    // Whether a pattern matches a string.
    fn matches(pattern: &[u8], text: &[u8]) -> bool
        ensures { result ≡ matched pattern.now text.now };
}
