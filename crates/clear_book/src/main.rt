// Clears the rule book of the files `names`, `masks` and `book`, and prints it.
#![tactic(auto)]

ghost use Rattle.std.specs.Prelude.{IfOk};
ghost use Rattle.kinds.specs.Decimals.{decimal_kind};
ghost use Rattle.clear_book.specs.Files.{FilesCome, Prints};

mod fault;
mod files;
mod limited;

use book_files::memory::BookMemory;
use book_lines::lines::cleared_lines;
use books::limits::{MOST_DEFINITIONS, MOST_NUMBERS, MOST_ROWS};
use clearing::memory::ClearedMemory;
use dialects::limits::MOST_FILE_PATTERNS;
use faults::Refusal;
use fields::part::Part;
use files::{Files, Memory, clear_files};
use kinds::decimal::Decimal;
use kinds::number::Number;
use rules::row::Row;
use std::alloc::{AllocError, Global};
use std::io::Write;
use std::{fs, io};

fn main(rt: HostRuntime) -> io::Result<()> {
    let heap = rt.alloc();
    let names = fs::read(&rt, "names")?;
    let masks = fs::read(&rt, "masks")?;
    let book = fs::read(&rt, "book")?;
    let mut parts = vec![in heap; Part::default(); MOST_FILE_PATTERNS]?;
    let mut numbers = vec![in heap; Decimal::zero(); MOST_NUMBERS]?;
    let mut rows = vec![in heap; Row::False; MOST_ROWS]?;
    let mut definitions = vec![in heap; 0_u16; MOST_DEFINITIONS]?;
    let mut cleared_rows = vec![in heap; Row::False; MOST_ROWS]?;
    let mut cleared_definitions = vec![in heap; 0_u16; MOST_DEFINITIONS]?;
    let files = Files {
        names: names.as_slice(),
        masks: masks.as_slice(),
        book: book.as_slice(),
    };
    let mut memory = Memory {
        parts: parts.as_mut_slice(),
        book: BookMemory {
            numbers: numbers.as_mut_slice(),
            rows: rows.as_mut_slice(),
            definitions: definitions.as_mut_slice(),
        },
        cleared: ClearedMemory {
            rows: cleared_rows.as_mut_slice(),
            definitions: cleared_definitions.as_mut_slice(),
        },
    };
    let output = answers(heap, files, &mut memory)?;
    rt.stdout().write_all(output.as_slice())
}

// What is printed for these files, with this memory. The book's numbers are decimals.
fn answers(
    heap: Global,
    files: Files<'_>,
    memory: &mut Memory<'_, Decimal>,
) -> Result<Vec<u8>, AllocError>
    ensures { IfOk result (λ v. Prints decimal_kind (FilesCome decimal_kind files.entry memory.old) v.items) }
{
    match clear_files(files, memory) {
        Ok(cleared) => cleared_lines(heap, cleared.draft, cleared.limits.numbers),
        Err(fault) => Refusal::from(fault).line(heap),
    }
}
