// Clears a rule book of `not`: writes an equal book in which each definition has its complement beside it.
#![tactic(auto)]

ghost use Rattle.std.specs.Prelude.{◌≡◌, min, nat_le};
ghost use Rattle.books.specs.Drafts.{drafted};
ghost use Rattle.clearing.specs.Outcomes.{memory_of, SameLent, Outcome, Seals};

mod added;
mod adding;
pub mod cleared;
mod complements;
mod counting;
pub mod fault;
mod fixed;
pub mod form;
pub mod memory;
pub mod sealed;
pub mod theorems;
mod writing;

use crate::counting::cleared_count;
use crate::fault::ClearFault;
use crate::memory::ClearedMemory;
use crate::writing::{write_bodies, write_rows};
use books::draft::Draft;
use books::limits::{MOST_DEFINITIONS, MOST_ROWS};
use rules::place::Place;

// Whether so many fit into the memory, and within the most that there may be.
fn fits(count: usize, memory: usize, most: usize) -> bool
    ensures { result ≡ nat_le count (min memory most) }
{
    count <= memory.min(most)
}

// Writes the cleared book over the front of the memory, and answers its count of rows. The numbers stay as they are.
// Rows that no sealed book has are refused as too many.
pub fn clear(draft: Draft<'_>, out: &mut ClearedMemory<'_>) -> Result<usize, ClearFault>
    ensures outcome { Outcome (drafted draft.entry) (memory_of out.old) (memory_of out.new) result }
    ensures sealed { Seals (drafted draft.entry) (memory_of out.old) (memory_of out.new) result }
    ensures lent { SameLent out.old out.new }
{
    let d = draft.definitions.len();
    let count = cleared_count(draft.rows, d).ok_or(ClearFault::TooManyRows)?;
    if !fits(count, out.rows.len(), MOST_ROWS) {
        return Err(ClearFault::TooManyRows);
    }
    if !fits(d, out.definitions.len() / 2, MOST_DEFINITIONS / 2) {
        return Err(ClearFault::TooManyDefinitions);
    }
    // a fixed table beside the rows: there is no heap here
    let mut places = [Place::default(); MOST_ROWS];
    write_rows(draft.rows, d as u16, out.rows, &mut places);
    write_bodies(
        draft.definitions,
        &places[..draft.rows.len()],
        out.definitions,
    );
    Ok(count)
}
