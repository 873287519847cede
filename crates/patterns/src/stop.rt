// Why there are no answers.
ghost use Rattle.std.specs.Prelude.{◌≡◌};
ghost use Rattle.patterns.specs.Answers.{ToldAs};
ghost use Rattle.patterns.specs.declared.stop.Stop.TheVariants.{Refused, OutOfMemory};

use dialects::fault::PatternFault;
use faults::Refusal;
use std::alloc::{AllocError, Global};

// Each `From` is written out: of what a derive makes nothing is proved.
#[derive(Clone, Copy)]
pub(crate) enum Stop {
    // a file is refused
    Refused(PatternFault),
    OutOfMemory(AllocError),
}

impl From<PatternFault> for Stop {
    ghost from_gives = { λ fault stop. stop ≡ Refused fault };

    fn from(fault: PatternFault) -> Stop {
        Stop::Refused(fault)
    }
}

impl From<AllocError> for Stop {
    ghost from_gives = { λ error stop. stop ≡ OutOfMemory error };

    fn from(error: AllocError) -> Stop {
        Stop::OutOfMemory(error)
    }
}

impl Stop {
    // The line that stands in place of the answers.
    pub(crate) fn line(self, heap: Global) -> Result<Vec<u8>, AllocError>
        ensures { ToldAs self result }
    {
        match self {
            Stop::Refused(fault) => Refusal::from(fault).line(heap),
            Stop::OutOfMemory(error) => Err(error),
        }
    }
}
