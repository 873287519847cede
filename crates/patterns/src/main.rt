// Tells for each text of its input which patterns of the files `names` and `masks` match it.
#![tactic(auto)]

ghost use Rattle.std.specs.Prelude.{IfOk};
ghost use Rattle.patterns.specs.Answers.{Tells};
ghost use Rattle.patterns.specs.Files.{PrintsFiles};

mod report;
mod stop;

use dialects::limits::MOST_FILE_PATTERNS;
use dialects::masks::Masks;
use dialects::names::Names;
use dialects::pair::Pair;
use dialects::reading::{read_masks, read_names};
use fields::part::Part;
use report::report;
use std::alloc::{AllocError, Global};
use std::io::{Read, Write};
use std::{fs, io};
use stop::Stop;

fn main(rt: HostRuntime) -> io::Result<()> {
    let heap = rt.alloc();
    let names = fs::read(&rt, "names")?;
    let masks = fs::read(&rt, "masks")?;
    let mut input = Vec::new(heap);
    rt.stdin().read_to_end(&mut input)?;
    let mut name_parts = vec![in heap; Part::default(); MOST_FILE_PATTERNS]?;
    let mut mask_parts = vec![in heap; Part::default(); MOST_FILE_PATTERNS]?;
    let files = Files {
        names: names.as_slice(),
        masks: masks.as_slice(),
        input: input.as_slice(),
    };
    let mut memory = Memory {
        names: name_parts.as_mut_slice(),
        masks: mask_parts.as_mut_slice(),
    };
    let output = output(heap, files, &mut memory)?;
    rt.stdout().write_all(output.as_slice())
}

// The bytes of the two files, and of the texts.
#[derive(Clone, Copy)]
pub(crate) struct Files<'a> {
    names: &'a [u8],
    masks: &'a [u8],
    input: &'a [u8],
}

// What is lent to the program: memory for the parts of each file.
#[derive(Drop)]
pub(crate) struct Memory<'a> {
    names: &'a mut [Part],
    masks: &'a mut [Part],
}

// What is printed for these files and this input, with this memory.
fn output(heap: Global, files: Files<'_>, memory: &mut Memory<'_>) -> Result<Vec<u8>, AllocError>
    ensures { IfOk result (λ v. PrintsFiles files.entry memory.old v.items) }
{
    answers(heap, files, memory).or_else(|stop| stop.line(heap))
}

// The answers of names before masks, if both files are read.
fn answers<'a>(heap: Global, files: Files<'a>, memory: &'a mut Memory<'_>) -> Result<Vec<u8>, Stop>
    ensures { Tells (PrintsFiles files.entry memory.old) result }
{
    // Two slices from here on: the borrow checker doesn't cover two fields of the memory lent in one call.
    let name_parts = &mut *memory.names;
    let mask_parts = &mut *memory.masks;
    let name_count = read_names(files.names, name_parts)?;
    let mask_count = read_masks(files.masks, mask_parts)?;
    let first = Names::new(files.names, &name_parts[..name_count]);
    let second = Masks::new(files.masks, &mask_parts[..mask_count]);
    Ok(report(heap, &Pair { first, second }, files.input)?)
}
