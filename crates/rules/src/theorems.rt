// The theorems. Each function does nothing: its contract is the theorem.
ghost use Rattle.std.specs.Prelude.{true, false};
ghost use Rattle.rules.specs.Theorems.{OneTable, SomeTable, StaysElsewhere, Renews, Complement, Judges, LaysOut, Clears};
ghost use Rattle.rules.specs.Examples.{SealsE, ClearsE, ExampleE};

// A sealed book has exactly one lawful table over a document.
pub fn tables_hold<K>()
    ensures one { OneTable K }
    ensures some { SomeTable K }
{}

// What another value at a node changes, and what it leaves.
pub fn changes_hold<K>()
    ensures elsewhere { StaysElsewhere K }
    ensures renewed { Renews K }
{}

// How a cleared book is laid out, and that it is one.
pub fn clears_holds()
    ensures rows { LaysOut }
    ensures book { Clears }
{}

// The cleared book says what the book says, and the opposite at its complements.
pub fn complements_hold<K>()
    ensures rows { Complement K }
    ensures definitions { Judges K }
{}

// A small book is sealed, so that the theorems above speak of something.
pub fn example_is_sealed()
    ensures { SealsE }
{}

// It is cleared as worked out by hand, and accepts `[]`, not `[1]`, and `[[1]]`.
pub fn example_holds<K>()
    ensures cleared { ClearsE }
    ensures judged { ExampleE K true false true }
{}
