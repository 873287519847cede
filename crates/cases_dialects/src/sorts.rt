// The sorts of case, and what a line of each comes to.
ghost use Rattle.std.specs.Prelude.{◌≡◌, IfOk, string_bytes, vec_len};
ghost use Rattle.cases.specs.Lefts.{parts_left};
ghost use Rattle.dialects.specs.Files.{Outcome, room};
ghost use Rattle.cases_dialects.specs.Lines.{sorts, sort_word, tag, Compares, ReadsFile, ReadsBoth, Told, Asks, Comes};

use crate::bits::answer_bits;
use crate::outcome::{expected, of_reading, outcome_text};
use cases::fault::LineFault;
use cases::outcome::Refused;
use cases::parts::Parts;
use cases_runs::sort::{Case, Sort};
use cases_runs::words::{take_bytes, take_number, take_word};
use dialects::fault::PatternFault;
use dialects::limits::MOST_FILE_PATTERNS;
use dialects::masks::Masks;
use dialects::names::Names;
use dialects::pair::Pair;
use dialects::reading::{read_masks, read_names};
use fields::part::Part;
use std::alloc::{AllocError, Global};
use std::str::from_utf8;

#[derive(Clone, Copy)]
pub enum FileSort {
    Names,
    Masks,
}

#[derive(Clone, Copy)]
pub enum PatternSort {
    // a file is read
    File(FileSort),
    // names before masks are asked about a string
    Match,
}

// Memory for so many patterns.
fn memory_for(heap: Global, count: usize) -> Result<Vec<Part>, AllocError>
    ensures { IfOk result (λ v. vec_len v ≡ count) }
{
    vec![in heap; Part::default(); count]
}

// A case of outcomes.
#[tactic(auto, using(crate::proofs::Telling::apart))]
fn case_of(
    heap: Global,
    expected: Result<usize, Refused>,
    came: Result<usize, Refused>,
) -> Result<Case, AllocError>
    ensures { IfOk result (λ c. Compares expected came (string_bytes c.expected) (string_bytes c.came)) }
{
    Ok(Case {
        expected: outcome_text(heap, expected)?,
        came: outcome_text(heap, came)?,
    })
}

impl FileSort {
    // Reads a file of patterns. A match, since the two readings are instances and no values that a sort could hold.
    fn read(self, file: &[u8], parts: &mut [Part]) -> Result<usize, PatternFault>
        ensures { Outcome (tag self) (room parts.old) file.now result }
    {
        match self {
            FileSort::Names => read_names(file, parts),
            FileSort::Masks => read_masks(file, parts),
        }
    }

    // Reads a file, by the words `MEMORY BYTES OUTCOME`. More memory than any file fills is never used.
    fn run(self, heap: Global, words: Parts<'_>) -> Result<Case, LineFault>
        ensures { IfOk result (λ c. ReadsFile self (parts_left words.entry) (string_bytes c.expected) (string_bytes c.came)) }
    {
        let mut rest = words;
        let count = take_number(&mut rest)?;
        let file = take_bytes(heap, &mut rest)?;
        let expected = expected(rest).ok_or(LineFault::Unreadable)?;
        let mut memory = memory_for(heap, count.min(MOST_FILE_PATTERNS))?;
        let came = of_reading(self.read(file.as_slice(), memory.as_mut_slice()));
        Ok(case_of(heap, expected, came)?)
    }
}

// Reads both files: the counts of their patterns, or why one is refused.
fn read_both(
    names: &[u8],
    masks: &[u8],
    name_parts: &mut [Part],
    mask_parts: &mut [Part],
) -> Result<(usize, usize), PatternFault>
    ensures { ReadsBoth names.now masks.now name_parts.old name_parts.new mask_parts.old mask_parts.new result }
{
    let first = read_names(names, name_parts)?;
    let second = read_masks(masks, mask_parts)?;
    Ok((first, second))
}

// The answers of names before masks about a string, with the files read into lent memory first; a refusal where one is refused.
// Each memory by itself, as in `read_both`: the borrow checker doesn't cover two fields of a struct lent in one call.
fn ask_in<'a>(
    heap: Global,
    names: &'a [u8],
    name_parts: &'a mut [Part],
    masks: &'a [u8],
    mask_parts: &'a mut [Part],
    text: &[u8],
) -> Result<String, AllocError>
    ensures { IfOk result (λ s. Told (room name_parts.old) (room mask_parts.old) names.now masks.now text.now (string_bytes s)) }
{
    match read_both(names, masks, name_parts, mask_parts) {
        Ok((first, second)) => {
            let first = Names::new(names, &name_parts[..first]);
            let second = Masks::new(masks, &mask_parts[..second]);
            answer_bits(heap, &Pair { first, second }, text)
        }
        Err(fault) => outcome_text(heap, of_reading(Err(fault))),
    }
}

// The same with memory of its own.
fn ask(heap: Global, names: &[u8], masks: &[u8], text: &[u8]) -> Result<String, AllocError>
    ensures { IfOk result (λ s. Told 21845 21845 names.now masks.now text.now (string_bytes s)) }
{
    let mut name_parts = memory_for(heap, MOST_FILE_PATTERNS)?;
    let mut mask_parts = memory_for(heap, MOST_FILE_PATTERNS)?;
    ask_in(
        heap,
        names,
        name_parts.as_mut_slice(),
        masks,
        mask_parts.as_mut_slice(),
        text,
    )
}

// Asks about a string, by the words `NAMES MASKS STRING BITS`.
fn run_match(heap: Global, words: Parts<'_>) -> Result<Case, LineFault>
    ensures { IfOk result (λ c. Asks (parts_left words.entry) (string_bytes c.expected) (string_bytes c.came)) }
{
    let mut rest = words;
    let names = take_bytes(heap, &mut rest)?;
    let masks = take_bytes(heap, &mut rest)?;
    let text = take_bytes(heap, &mut rest)?;
    let bits = take_word(&mut rest)?;
    if rest.next().is_some() {
        return Err(LineFault::Unreadable);
    }
    let expected = String::from_str(heap, from_utf8(bits)?)?;
    let came = ask(heap, names.as_slice(), masks.as_slice(), text.as_slice())?;
    Ok(Case { expected, came })
}

// In the order of the report.
const SORTS: [PatternSort; 3] = [
    PatternSort::File(FileSort::Names),
    PatternSort::File(FileSort::Masks),
    PatternSort::Match,
];

impl Sort for PatternSort {
    ghost sorts = { sorts };

    ghost word = { sort_word };

    ghost comes = { Comes };

    fn count() -> usize {
        SORTS.len()
    }

    fn at(place: usize) -> Option<PatternSort> {
        SORTS.get(place).copied()
    }

    fn name(self) -> &'static str {
        match self {
            PatternSort::File(FileSort::Names) => "names",
            PatternSort::File(FileSort::Masks) => "masks",
            PatternSort::Match => "match",
        }
    }

    fn run(self, heap: Global, words: Parts<'_>) -> Result<Case, LineFault> {
        match self {
            PatternSort::File(sort) => sort.run(heap, words),
            PatternSort::Match => run_match(heap, words),
        }
    }
}
