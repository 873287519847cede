// Clears a sealed book, as its view shows it.
ghost use Rattle.rules.specs.Book.{Limits, Sealed};
ghost use Rattle.clearing.specs.Outcomes.{memory_of, SameLent};
ghost use Rattle.clearing.specs.Views.{viewed, view_limits};
ghost use Rattle.clearing.specs.Sealed.{ViewOutcome, MakesCleared};

use crate::clear;
use crate::fault::ClearFault;
use crate::memory::ClearedMemory;
use books::book::Book;
use books::draft::Draft;

// Writes the cleared book over the front of the memory, and answers its count of rows. The numbers stay as they are.
pub fn clear_sealed(book: &Book<'_>, out: &mut ClearedMemory<'_>) -> Result<usize, ClearFault>
    ensures outcome { ViewOutcome (viewed book.now) (memory_of out.old) (memory_of out.new) result }
    ensures cleared { MakesCleared (view_limits book.now) (viewed book.now) (memory_of out.new) result }
    ensures limits { (limits : Limits) → Sealed limits (viewed book.now) → MakesCleared limits (viewed book.now) (memory_of out.new) result }
    ensures lent { SameLent out.old out.new }
{
    let draft = Draft {
        rows: book.rows(),
        definitions: book.definitions(),
    };
    clear(draft, out)
}
