// Finds the lowest row that needs itself.
ghost use Rattle.std.specs.Prelude.{◌≡◌, ◌<◌, ◌≤◌, List, length};
ghost use Rattle.rules.specs.Book.{needs, variables};
ghost use Rattle.std.specs.List.{AllByRecursion};
ghost use Rattle.books.specs.Drafts.{drafted};
ghost use Rattle.books.specs.Guard.{book_of, if_there, listed, calls as calls_by, Marked, FirstCall, FirstCycle, Finds, lower_of};

use crate::draft::Draft;
use crate::joined::JoinedDraft;
use crate::limits::MOST_ROWS;
use rules::row::Row;

// How far a search for what a row needs has come: the rows that are marked,
// and those of them that are not looked at yet, which wait on a stack of this height. The tables are fixed: there is no heap here.
#[derive(Drop)]
struct Search {
    marks: [bool; MOST_ROWS],
    stack: [u16; MOST_ROWS],
    height: usize,
    ghost within: { height ≤ length stack },
}

impl Search {
    ghost use Rattle.books.specs.Spread.{seen, visit as visited, visit_all, Room, EveryRoom, Fresh, Pops};

    // Nothing is marked.
    fn new() -> Search
        ensures { Fresh 2048 (seen result) }
    {
        Search {
            marks: [false; MOST_ROWS],
            stack: [0; MOST_ROWS],
            height: 0,
        }
    }

    // Marks a row, which then waits, unless it is marked already.
    fn visit(&mut self, row: u16)
        requires { Room row (seen self.old) }
        ensures { seen self.new ≡ visited row (seen self.old) }
    {
        if self.marks[usize::from(row)] {
            return;
        }
        self.marks[usize::from(row)] = true;
        self.stack[self.height] = row;
        self.height += 1;
    }

    // Visits a row that a row may need.
    fn visit_any(&mut self, row: Option<u16>)
        requires { EveryRoom row (seen self.old) }
        ensures { seen self.new ≡ visit_all (if_there row) (seen self.old) }
    {
        if let Some(row) = row {
            self.visit(row);
        }
    }

    // Takes the uppermost row off, if one waits.
    fn pop(&mut self) -> Option<u16>
        ensures { Pops (seen self.old) (seen self.new) result }
    {
        self.height = self.height.checked_sub(1)?;
        Some(self.stack[self.height])
    }
}

// The rows that a row directly needs: none, one or two.
fn direct_needs(row: Row, definitions: &[u16]) -> [Option<u16>; 2]
    requires { AllByRecursion (λ v. v < length definitions.now) (variables row) }
    ensures { (rows : List Row) → listed result ≡ needs (book_of rows definitions.now) row }
{
    match row {
        Row::And(a, b) | Row::Or(a, b) => [Some(a), Some(b)],
        Row::Not(o) => [Some(o), None],
        Row::Variable(v) => [Some(definitions[usize::from(v)]), None],
        _ => [None, None],
    }
}

// Whether a row is a variable of this definition.
fn calls(row: Row, definition: usize) -> bool
    ensures { result ≡ calls_by row definition }
{
    matches!(row, Row::Variable(v) if usize::from(v) == definition)
}

// The lowest marked row that is a variable of this definition.
fn lowest_call(rows: &[Row], definition: usize, marks: &[bool]) -> Option<usize>
    requires { length rows.now ≤ length marks.now }
    ensures { FirstCall rows.now definition marks.now result }
{
    // a loop, since `zip` tests the ends of both at each turn
    for (r, row) in rows.iter().enumerate() {
        if marks[r] && calls(*row, definition) {
            return Some(r);
        }
    }
    None
}

// The lower of two rows that may be there.
fn lower(one: Option<usize>, other: Option<usize>) -> Option<usize>
    ensures { result ≡ lower_of one other }
{
    match (one, other) {
        (Some(r), Some(s)) => Some(r.min(s)),
        _ => one.or(other),
    }
}

impl JoinedDraft<'_> {
    ghost use Rattle.books.specs.Spread.{seen, Fresh};

    // Marks a row and all that it needs. Each row waits at most once, so it ends within as many turns as there are rows.
    // The search is lent, since its tables are large to hand over.
    fn mark_reached(self, start: u16, search: &mut Search)
        requires { (start < length self.draft.rows.now) × Fresh 2048 (seen search.old) }
        ensures { Marked (drafted self.entry.draft) start search.new.marks }
    {
        let Draft { rows, definitions } = self.draft;
        search.visit(start);
        while let Some(at) = search.pop() {
            let [first, second] = direct_needs(rows[usize::from(at)], definitions);
            search.visit_any(first);
            search.visit_any(second);
        }
    }

    // The lowest variable of this definition that needs itself.
    // A variable needs itself exactly if its definition's body reaches it.
    fn lowest_variable(self, definition: usize) -> Option<usize>
        requires { definition < length self.draft.definitions.now }
        ensures { FirstCycle (drafted self.entry.draft) definition result }
    {
        let mut search = Search::new();
        self.mark_reached(self.draft.definitions[definition], &mut search);
        lowest_call(self.draft.rows, definition, &search.marks)
    }

    // The lowest row that needs itself, if one does. Such a row is a variable: any other needs only rows below it,
    // and the next one on its way back to itself would need itself too.
    pub(crate) fn lowest_cycle(self) -> Option<usize>
        ensures { Finds (drafted self.entry.draft) result }
    {
        (0..self.draft.definitions.len()).fold(
            None,
            |lowest, d| lower(lowest, self.lowest_variable(d)),
        )
    }
}
