// The theorems on clearing. Each function does nothing: its contract is the theorem.
ghost use Rattle.clearing.specs.Cleared.{AcceptsNothing, ViewsClear};
ghost use Rattle.clearing.specs.Outcomes.{VerdictsKept};

// The written book judges as the book does, for every number kind and dialect.
pub fn verdicts_hold<K>()
    ensures { VerdictsKept K }
{}

// What is made of a book that is not cleared accepts nothing, and its complement everything.
pub fn nothing_holds<K>()
    ensures { AcceptsNothing K }
{}

// The view that is sealed of what clearing wrote is one of the cleared book.
pub fn views_hold<K>()
    ensures { ViewsClear K }
{}
