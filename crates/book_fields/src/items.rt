// Reads what stands in a field, a number, a row or a definition, and puts it behind the others.
ghost use Rattle.std.specs.Prelude.{◌≡◌, length, nat_le};
ghost use Rattle.lists.specs.Lists.{values_of, room, Lent};
ghost use Rattle.books.specs.Drafts.{limits_in};
ghost use Rattle.book_fields.specs.Items.{number_from, row_from, definition_from, if_room, Puts};

use books::fault::BookFault;
use books::limits::Limits;
use books::parts::test_row;
use kinds::number::{Number, read_number_at};
use lists::lent::LentList;
use rows::reading::read_row;
use rules::row::Row;

// The number of the token at this place, unless the memory or the maximum is full.
// `full` is asked for here and in the two below: each promises what a full memory is told, before the item's own fault.
pub fn number_of<K: Number>(body: &[u8], place: usize, full: bool) -> Result<K, BookFault>
    ensures { result ≡ number_from K.Number.kind full place body.now }
{
    if full {
        Err(BookFault::TooMany(place))
    } else {
        Ok(read_number_at(body, place)?)
    }
}

// The row of ten bytes at this place, as row number `at` of a book within these limits, unless the memory or the maximum is full.
pub fn row_of<K: Number>(
    body: &[u8],
    place: usize,
    full: bool,
    at: usize,
    limits: Limits<'_, K>,
) -> Result<Row, BookFault>
    ensures { result ≡ row_from (limits_in K.Number.kind limits.entry) full at place body.now }
{
    if full {
        return Err(BookFault::TooMany(place));
    }
    let row = read_row(body).ok_or(BookFault::NotAllowed(place))?;
    test_row(row, at, place, limits)?;
    Ok(row)
}

// The body row of the definition at this place, which is one of so many rows, unless the memory or the maximum is full.
pub fn definition_of(body: &[u8], place: usize, full: bool, rows: usize) -> Result<u16, BookFault>
    ensures { result ≡ definition_from full place rows body.now }
{
    if full {
        return Err(BookFault::TooMany(place));
    }
    let [high, low] = body else {
        return Err(BookFault::WrongLength(place));
    };
    let row = u16::from_be_bytes([*high, *low]);
    if usize::from(row) >= rows {
        return Err(BookFault::Missing(place));
    }
    Ok(row)
}

// Puts an item behind the others of a list, where there is room; a full list is told before the item's own fault.
pub fn put<T: Copy>(
    list: &mut LentList<'_, T>,
    place: usize,
    item: Result<T, BookFault>,
) -> Result<(), BookFault>
    ensures puts { Puts (if_room (nat_le (room list.old) (length (values_of list.old))) place item) list.old list.new result }
    ensures lent { Lent list.old list.new }
{
    if list.is_full() {
        return Err(BookFault::TooMany(place));
    }
    list.push(item?);
    Ok(())
}
