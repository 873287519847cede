// Why the program prints no book.
ghost use Rattle.std.specs.Prelude.{◌≡◌};
ghost use Rattle.clear_book.specs.Faults.{refusal_of};
ghost use Rattle.clear_book.specs.declared.fault.Fault.TheVariants.{Patterns, Book, Clearing};

use books::fault::BookFault;
use clearing::fault::ClearFault;
use dialects::fault::PatternFault;
use faults::Refusal;

// The first refusal of the files, or of the clearing. Each `From` is written out: of what a derive makes nothing is proved.
#[derive(Clone, Copy)]
pub(crate) enum Fault {
    Patterns(PatternFault),
    Book(BookFault),
    Clearing(ClearFault),
}

impl From<PatternFault> for Fault {
    ghost from_gives = { λ fault f. f ≡ Patterns fault };

    fn from(fault: PatternFault) -> Fault {
        Fault::Patterns(fault)
    }
}

impl From<BookFault> for Fault {
    ghost from_gives = { λ fault f. f ≡ Book fault };

    fn from(fault: BookFault) -> Fault {
        Fault::Book(fault)
    }
}

impl From<ClearFault> for Fault {
    ghost from_gives = { λ fault f. f ≡ Clearing fault };

    fn from(fault: ClearFault) -> Fault {
        Fault::Clearing(fault)
    }
}

// The number, place and layer of a fault.
impl From<Fault> for Refusal {
    ghost from_gives = { λ fault r. r ≡ refusal_of fault };

    fn from(fault: Fault) -> Refusal {
        match fault {
            Fault::Patterns(fault) => Refusal::from(fault),
            Fault::Book(fault) => Refusal::from(fault),
            Fault::Clearing(fault) => Refusal::from(fault),
        }
    }
}
