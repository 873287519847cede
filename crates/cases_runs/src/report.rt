// The report of a run: how many cases there were of each sort, and what differed.
ghost use Rattle.std.specs.Prelude.{◌≡◌, ◌+◌, [], ◌++◌, length, replicate, IfOk, OnOk, vec_items, string_bytes};
ghost use Rattle.cases.specs.Tallies.{no_cases};
ghost use Rattle.cases_runs.specs.Reports.{name_at, count_lines, total as total_of, counts_text};
ghost use Rattle.cases_runs.specs.Runs.{counted_at, Notes, NotesUnread};

use crate::sort::{Case, Sort};
use cases::tally::Tally;
use std::alloc::{AllocError, Global};
use std::fmt::Write;

// A case that was run: the place of its sort, its number, and what came of it.
#[derive(Drop)]
pub struct Ran {
    pub place: usize,
    pub number: usize,
    pub case: Case,
}

// The report so far.
#[derive(Drop)]
pub struct Report {
    // one for each sort, and one for the lines that can't be read
    tallies: Vec<Tally>,
    // what is told of the lines so far
    text: String,
}

// The first word of the lines that are counted at a place: those of a sort, or after the sorts those that can't be read.
fn name_at<S: Sort>(place: usize) -> &'static str
    ensures { result.now ≡ name_at S.Sort.sorts S.Sort.word place }
{
    S::at(place).map_or("unread", |sort| sort.name())
}

// Adds the lines of all places.
fn count_lines<S: Sort>(text: &mut String, tallies: &[Tally]) -> Result<(), AllocError>
    ensures { OnOk result (string_bytes text.new ≡ string_bytes text.old ++ count_lines (name_at S.Sort.sorts S.Sort.word) 0 tallies.now) }
{
    for (place, tally) in tallies.iter().enumerate() {
        let name = name_at::<S>(place);
        writeln!(text, "{name}: {tally}")?;
    }
    Ok(())
}

// The cases of all places; a line that can't be read is one that differs.
fn total(tallies: &[Tally]) -> Tally
    ensures { result ≡ total_of tallies.now }
{
    tallies
        .iter()
        .fold(Tally::new(), |sum, tally| sum.with(*tally))
}

impl Report {
    // Before the first line.
    pub(crate) fn new<S: Sort>(heap: Global) -> Result<Report, AllocError>
        ensures { IfOk result (λ r. (vec_items r.tallies ≡ replicate (length S.Sort.sorts + 1) no_cases) × (string_bytes r.text ≡ [])) }
    {
        Ok(Report {
            tallies: vec![in heap; Tally::new(); S::count() + 1]?,
            text: String::new(heap),
        })
    }

    // Counts one case more at a place.
    fn count(&mut self, place: usize, differs: bool)
        ensures tallies { vec_items self.new.tallies ≡ counted_at (vec_items self.old.tallies) place differs }
        ensures text { self.new.text ≡ self.old.text }
    {
        if let Some(tally) = self.tallies.get_mut(place) {
            tally.count(differs);
        }
    }

    // Counts a case, and tells of it where it differs.
    pub(crate) fn note_case<S: Sort>(&mut self, ran: &Ran) -> Result<(), AllocError>
        ensures { OnOk result (Notes S.Sort.sorts S.Sort.word S.Sort.comes ran.now.place ran.now.number (string_bytes ran.now.case.expected) (string_bytes ran.now.case.came) (vec_items self.old.tallies) (string_bytes self.old.text) (vec_items self.new.tallies) (string_bytes self.new.text)) }
    {
        let differs = ran.case.differs();
        self.count(ran.place, differs);
        if differs {
            let name = name_at::<S>(ran.place);
            let number = ran.number;
            let expected = ran.case.expected.as_str();
            let came = ran.case.came.as_str();
            writeln!(
                self.text,
                "{name} {number}: expected {expected}, came {came}"
            )?;
        }
        Ok(())
    }

    // Counts a line that can't be read as one that differs, and tells of it.
    pub(crate) fn note_unread<S: Sort>(&mut self, number: usize) -> Result<(), AllocError>
        ensures { OnOk result (NotesUnread (length S.Sort.sorts) number (vec_items self.old.tallies) (string_bytes self.old.text) (vec_items self.new.tallies) (string_bytes self.new.text)) }
    {
        self.count(S::count(), true);
        writeln!(self.text, "line {number} can't be read")
    }

    // The whole report: after what is told a line of counts for each place, and last the line of them all.
    pub(crate) fn finish<S: Sort>(self) -> Result<String, AllocError>
        ensures { IfOk result (λ s. string_bytes s ≡ string_bytes self.text ++ counts_text (name_at S.Sort.sorts S.Sort.word) (vec_items self.tallies)) }
    {
        let Report { tallies, mut text } = self;
        count_lines::<S>(&mut text, tallies.as_slice())?;
        let total = total(tallies.as_slice());
        writeln!(text, "{total}")?;
        Ok(text)
    }
}
