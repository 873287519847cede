// Why a book is not cleared.
ghost use Rattle.std.specs.Prelude.{◌≡◌};
ghost use Rattle.clearing.specs.Faults.{refusal_of};

use faults::{Layer, Refusal};

// The cleared book would not fit into its memory, or within the most that a book may have.
#[derive(Clone, Copy, PartialEq, Eq, Debug)]
pub enum ClearFault {
    TooManyRows,
    TooManyDefinitions,
}

// The number, place and layer of a fault.
impl From<ClearFault> for Refusal {
    ghost from_gives = { λ fault r. r ≡ refusal_of fault };

    fn from(fault: ClearFault) -> Refusal {
        let number = match fault {
            ClearFault::TooManyRows => 35,
            ClearFault::TooManyDefinitions => 36,
        };
        Refusal {
            number,
            place: 0,
            layer: Layer::Book,
        }
    }
}
