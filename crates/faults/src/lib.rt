// What every refused call tells: a number, a place and a layer.
#![tactic(auto)]

ghost use Rattle.std.specs.Prelude.{◌≡◌, ◌∷◌, [], ◌++◌, Some, IfOk};
ghost use Rattle.faults.specs.Refusals.{layer_number, refusal_line};

use std::alloc::{AllocError, Global};
use std::fmt;

// The part of the house that refuses.
#[derive(Clone, Copy, PartialEq, Eq, Debug)]
pub enum Layer {
    // a number kind
    Kind,
    // the text of a document
    Text,
    // a rule book, or its clearing
    Book,
    // a dialect of patterns
    Dialect,
    // a board, or the lines of the program
    Board,
}

// What a fault comes to for whoever is refused: the number says why, the place says where.
// The kinds of refusals are the enums of faults, which turn into this; the number is what is told of them.
#[derive(Clone, Copy, PartialEq, Eq, Debug)]
pub struct Refusal {
    pub number: u8,
    pub place: usize,
    pub layer: Layer,
}

// The number by which a layer is reported.
impl From<Layer> for u8 {
    ghost from_gives = { λ layer n. n ≡ layer_number layer };

    fn from(layer: Layer) -> u8 {
        match layer {
            Layer::Kind => 1,
            Layer::Text => 2,
            Layer::Book => 3,
            Layer::Dialect => 4,
            Layer::Board => 5,
        }
    }
}

impl Refusal {
    // The line that a program prints in place of its answers, with its line feed.
    pub fn line(self, heap: Global) -> Result<Vec<u8>, AllocError>
        ensures { IfOk result (λ v. v.items ≡ refusal_line self ++ (10 ∷ [])) }
    {
        Ok(format!(in heap; "{self}\n")?.into_bytes())
    }
}

impl fmt::Display for Refusal {
    ghost output = { λ r. Some (refusal_line r) };

    fn fmt<W: fmt::Write>(&self, f: &mut fmt::Formatter<W>) -> fmt::Result {
        write!(f, "refused {} at {}", self.number, self.place)
    }
}
