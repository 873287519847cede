// A run of all the lines.
ghost use Rattle.std.specs.Prelude.{IfSome, IfOk, vec_items, string_bytes, Decides, OnOk};
ghost use Rattle.cases_runs.specs.Runs.{Remark, Steps, Reports};
ghost use Rattle.cases_runs.specs.Places.{Names, RanOf};

pub use crate::report::Ran;
use crate::report::Report;
use crate::sort::Sort;
use crate::words::{take_number, take_word};
use cases::fault::LineFault;
use cases::parts::Parts;
use lines::Lines;
use std::alloc::Global;

// The sort whose lines begin with this word, after its place.
fn sort_of<S: Sort>(name: &[u8]) -> Option<(usize, S)>
    ensures { IfSome result (λ p. Names S.Sort.sorts S.Sort.word name.now p.0 p.1) }
{
    for place in 0..S::count() {
        if let Some(sort) = S::at(place)
            && sort.name().as_bytes() == name
        {
            return Some((place, sort));
        }
    }
    None
}

// Runs the case of a line: `SORT NUMBER TAG ..`. The tag is of no account here.
fn run_line<S: Sort>(heap: Global, line: &[u8]) -> Result<Ran, LineFault>
    ensures { IfOk result (RanOf S.Sort.sorts S.Sort.word S.Sort.comes line.now) }
{
    let mut words = Parts::new(line, b' ');
    let name = take_word(&mut words)?;
    let number = take_number(&mut words)?;
    let _tag = take_word(&mut words)?;
    let (place, sort) = sort_of::<S>(name).ok_or(LineFault::Unreadable)?;
    let case = sort.run(heap, words)?;
    Ok(Ran {
        place,
        number,
        case,
    })
}

// Whether a line begins with `#` and so is no case.
fn is_remark(line: &[u8]) -> bool
    ensures { Decides result (Remark line.now) }
{
    line.starts_with(b"#")
}

// Runs one line, unless it is a remark, and reports on it.
fn take_line<S: Sort>(
    heap: Global,
    report: &mut Report,
    number: usize,
    line: &[u8],
) -> Result<(), LineFault>
    ensures { OnOk result (Steps S.Sort.sorts S.Sort.word S.Sort.comes number line.now (vec_items report.old.tallies) (string_bytes report.old.text) (vec_items report.new.tallies) (string_bytes report.new.text)) }
{
    if is_remark(line) {
        return Ok(());
    }
    match run_line::<S>(heap, line) {
        Ok(ran) => report.note_case::<S>(&ran)?,
        Err(LineFault::Unreadable) => report.note_unread::<S>(number)?,
        Err(LineFault::OutOfMemory) => return Err(LineFault::OutOfMemory),
    }
    Ok(())
}

// Runs the lines of an input, and reports what differs and how many cases there were.
pub fn run<S: Sort>(heap: Global, input: &[u8]) -> Result<String, LineFault>
    ensures { IfOk result (λ s. Reports S.Sort.sorts S.Sort.word S.Sort.comes input.now (string_bytes s)) }
{
    let mut report = Report::new::<S>(heap)?;
    // Lines are numbered from 1.
    for (i, line) in Lines::of(input).enumerate() {
        take_line::<S>(heap, &mut report, i + 1, line)?;
    }
    Ok(report.finish::<S>()?)
}
