// Why a file of patterns is refused.
ghost use Rattle.std.specs.Prelude.{◌≡◌};
ghost use Rattle.dialects.specs.Faults.{refusal_of};

use faults::{Layer, Refusal};

// Each case but the first holds the offset of the field that is refused.
#[derive(Clone, Copy, PartialEq, Eq, Debug)]
pub enum PatternFault {
    FileTooLong,
    UnknownTag(usize),
    WrongLength(usize),
    TooMany(usize),
}

// The number, place and layer of a fault.
impl From<PatternFault> for Refusal {
    ghost from_gives = { λ fault refusal. refusal ≡ refusal_of fault };

    fn from(fault: PatternFault) -> Refusal {
        let (number, place) = match fault {
            PatternFault::FileTooLong => (31, 0),
            PatternFault::UnknownTag(place) => (21, place),
            PatternFault::WrongLength(place) => (22, place),
            PatternFault::TooMany(place) => (34, place),
        };
        let layer = Layer::Dialect;
        Refusal {
            number,
            place,
            layer,
        }
    }
}
