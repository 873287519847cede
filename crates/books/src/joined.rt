// A draft that passed the tests of its parts.
ghost use Rattle.std.proofs.Props.{props};
ghost use Rattle.books.specs.Drafts.{drafted};
ghost use Rattle.books.specs.Guard.{Joined};

use crate::draft::Draft;

// Its rows and definitions name what is there, and a row only rows below it.
#[derive(Clone, Copy)]
pub(crate) struct JoinedDraft<'a> {
    pub(crate) draft: Draft<'a>,
    // `by` shows that the fact has one proof at most: it holds words that go by recursion.
    ghost joined: { Joined (drafted draft) } by { Prim.hlevel props },
}
