// Why a line of test vectors, or a word of it, can't be used.
ghost use Rattle.std.specs.Prelude.{◌≡◌};
ghost use Rattle.cases.specs.declared.fault.LineFault.TheVariants.{Unreadable, OutOfMemory};

use std::alloc::{AllocError, AllocFailed};
use std::str::Utf8Error;

// Each `From` is written out: of what a derive makes nothing is proved.
#[derive(Clone, Copy)]
pub enum LineFault {
    Unreadable,
    OutOfMemory,
}

impl From<AllocError> for LineFault {
    ghost from_gives = { λ _ r. r ≡ OutOfMemory };

    fn from(_error: AllocError) -> LineFault {
        LineFault::OutOfMemory
    }
}

impl<T: Drop> From<AllocFailed<T>> for LineFault {
    ghost from_gives = { λ _ r. r ≡ OutOfMemory };

    fn from(_error: AllocFailed<T>) -> LineFault {
        LineFault::OutOfMemory
    }
}

// A word that is no text can't be read.
impl From<Utf8Error> for LineFault {
    ghost from_gives = { λ _ r. r ≡ Unreadable };

    fn from(_error: Utf8Error) -> LineFault {
        LineFault::Unreadable
    }
}
