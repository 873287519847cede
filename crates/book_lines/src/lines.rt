// The lines of a cleared book, one after another on a page.
ghost use Rattle.std.specs.Prelude.{◌≡◌, ◌++◌, IfOk, OnOk, codes};
ghost use Rattle.book_lines.specs.Lines.{bounds_text, operand_text, row_line, definition_line, definition_lines, numbered, book_text};
ghost use Rattle.book_lines.specs.Pages.{Adds};
ghost use Rattle.books.specs.Drafts.{drafted};

use crate::page::Page;
use crate::words::{Ends, operator_word, type_word};
use books::draft::Draft;
use kinds::number::Number;
use rules::row::{Bounds, Row};
use std::alloc::{AllocError, Global};

impl<K: Number> Page<'_, K> {
    // Bounds, after a blank.
    fn write_bounds(&mut self, bounds: Bounds) -> Result<(), AllocError>
        ensures { OnOk result (Adds self.old self.new (codes " " ++ bounds_text K.Number.kind self.old.numbers.now bounds)) }
    {
        match (bounds.lower, bounds.upper) {
            (Some(lower), Some(upper)) => {
                self.write_number(" ", lower)?;
                self.write_number(" and ", upper)
            }
            (Some(lower), None) => self.write_number(" from ", lower),
            (None, Some(upper)) => self.write_number(" up to ", upper),
            (None, None) => write!(self, " any"),
        }
    }

    // What comes after a row's operator.
    fn write_operands(&mut self, row: Row) -> Result<(), AllocError>
        ensures { OnOk result (Adds self.old self.new (operand_text K.Number.kind self.old.numbers.now row)) }
    {
        match row {
            Row::True | Row::False => Ok(()),
            Row::OfType(of) => write!(self, " {}", type_word(of)),
            Row::BooleanIs(value) => write!(self, " {value}"),
            Row::Pattern(n)
            | Row::NotPattern(n)
            | Row::EveryElement(n)
            | Row::SomeElement(n)
            | Row::Not(n)
            | Row::Variable(n) => write!(self, " {n}"),
            Row::Length(range) | Row::Members(range) => write!(self, " {}", Ends(range)),
            Row::Between(bounds) | Row::StrictlyBetween(bounds) => self.write_bounds(bounds),
            Row::Multiple(q) | Row::NotMultiple(q) => self.write_number(" of ", q),
            Row::EveryMember(p, o) | Row::SomeMember(p, o) => write!(self, " of pattern {p}: {o}"),
            Row::Count(o, range) => write!(self, " of {o}: {}", Ends(range)),
            Row::And(a, b) | Row::Or(a, b) => write!(self, " {a}, {b}"),
        }
    }

    // The line of row number r.
    fn write_row(&mut self, r: usize, row: Row) -> Result<(), AllocError>
        ensures { OnOk result (Adds self.old self.new (row_line K.Number.kind self.old.numbers.now r row)) }
    {
        write!(self, "row {r}: {}", operator_word(row))?;
        self.write_operands(row)?;
        writeln!(self)
    }

    // The line of definition number k, where the first `own` are the book's own and the others their complements.
    fn write_definition(&mut self, own: usize, k: usize, body: u16) -> Result<(), AllocError>
        ensures { OnOk result (Adds self.old self.new (definition_line own k body)) }
    {
        match k.checked_sub(own) {
            None => writeln!(self, "definition {k}: row {body}"),
            Some(of) => writeln!(self, "definition {k}, complement of {of}: row {body}"),
        }
    }

    // A line a row.
    fn write_rows(&mut self, rows: &[Row]) -> Result<(), AllocError>
        ensures { OnOk result (Adds self.old self.new (numbered (row_line K.Number.kind self.old.numbers.now) 0 rows.now)) }
    {
        for (r, row) in rows.iter().enumerate() {
            self.write_row(r, *row)?;
        }
        Ok(())
    }

    // A line a definition.
    fn write_definitions(&mut self, definitions: &[u16]) -> Result<(), AllocError>
        ensures { OnOk result (Adds self.old self.new (definition_lines definitions.now)) }
    {
        let own = definitions.len().div_ceil(2);
        for (k, body) in definitions.iter().enumerate() {
            self.write_definition(own, k, *body)?;
        }
        Ok(())
    }
}

// The lines of a cleared book with these numbers: one a row, one a definition, and the counts.
pub fn cleared_lines<K: Number>(
    heap: Global,
    draft: Draft<'_>,
    numbers: &[K],
) -> Result<Vec<u8>, AllocError>
    ensures { IfOk result (λ v. v.items ≡ book_text K.Number.kind numbers.now (drafted draft.entry)) }
{
    let Draft { rows, definitions } = draft;
    let mut page = Page {
        text: Vec::new(heap),
        numbers,
        heap,
    };
    page.write_rows(rows)?;
    page.write_definitions(definitions)?;
    writeln!(
        page,
        "{} rows, {} definitions",
        rows.len(),
        definitions.len()
    )?;
    Ok(page.text)
}
