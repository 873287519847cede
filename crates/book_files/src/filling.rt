// Fills in the numbers, rows and definitions of a book's file, field by field.
ghost use Rattle.book_files.specs.Drafts.{memory};
ghost use Rattle.book_files.specs.Filling.{Fills};

use crate::reading::BookCounts;
use book_fields::field::{Tag, next_field};
use book_fields::items::{definition_of, number_of, put, row_of};
use books::fault::BookFault;
use books::limits::{Limits, MOST_DEFINITIONS, MOST_NUMBERS, MOST_ROWS};
use kinds::number::Number;
use lists::lent::LentList;
use rules::row::Row;

// Fills in a file's numbers, rows and definitions, up to the first field that is refused.
#[tactic(auto, using(crate::proofs::Growing::nothing_yet, crate::proofs::Slots::none_yet))]
pub(crate) fn fill<K: Number>(
    bytes: &[u8],
    patterns: usize,
    numbers: &mut [K],
    rows: &mut [Row],
    definitions: &mut [u16],
) -> Result<BookCounts, BookFault>
    ensures { Fills K.Number.kind patterns bytes.now (memory numbers.old rows.old definitions.old) (memory numbers.new rows.new definitions.new) result }
{
    let mut numbers = LentList::new(numbers, MOST_NUMBERS);
    let mut rows = LentList::new(rows, MOST_ROWS);
    let mut definitions = LentList::new(definitions, MOST_DEFINITIONS);
    let mut last = Tag::Number;
    let mut rest = bytes;
    // no iterator over fields, as in the files of patterns
    while !rest.is_empty() {
        let place = bytes.len() - rest.len();
        let field = next_field(rest, u8::from(last), place)?;
        match field.tag {
            Tag::Number => {
                let number = number_of(field.body, place, numbers.is_full());
                put(&mut numbers, place, number)?;
            }
            Tag::Row => {
                let limits = Limits {
                    numbers: numbers.as_slice(),
                    patterns,
                };
                let row = row_of(field.body, place, rows.is_full(), rows.len(), limits);
                put(&mut rows, place, row)?;
            }
            Tag::Definition => {
                let row = definition_of(field.body, place, definitions.is_full(), rows.len());
                put(&mut definitions, place, row)?;
            }
        }
        last = field.tag;
        rest = field.rest;
    }
    Ok(BookCounts {
        numbers: numbers.len(),
        rows: rows.len(),
        definitions: definitions.len(),
    })
}
