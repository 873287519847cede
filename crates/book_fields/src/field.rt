// Takes the next field off a book's file.
ghost use Rattle.std.specs.Prelude.{◌≡◌};
ghost use Rattle.book_fields.specs.Fields.{is_wrong, cut_fault, tag_number, NamesTag, PlacesTag, TakesField, Cuts};

use books::fault::BookFault;
use fields::field::{CutShort, split_field};

// What a field holds. No field of a file comes after one with a higher tag.
#[derive(Clone, Copy, PartialEq, Eq, Debug)]
pub enum Tag {
    Number,
    Row,
    Definition,
}

// The number by which a file has a tag.
impl From<Tag> for u8 {
    ghost from_gives = { λ t n. n ≡ tag_number t };

    fn from(tag: Tag) -> u8 {
        match tag {
            Tag::Number => 1,
            Tag::Row => 2,
            Tag::Definition => 3,
        }
    }
}

// A number that no tag of a book has.
#[derive(Clone, Copy, PartialEq, Eq, Debug)]
pub struct UnknownTag(pub u8);

// The tag of a number.
impl TryFrom<u8> for Tag {
    type Error = UnknownTag;

    ghost try_from_gives = { NamesTag };

    fn try_from(number: u8) -> Result<Tag, UnknownTag> {
        match number {
            1 => Ok(Tag::Number),
            2 => Ok(Tag::Row),
            3 => Ok(Tag::Definition),
            _ => Err(UnknownTag(number)),
        }
    }
}

// A field of a book's file, and what comes after it.
#[derive(Clone, Copy)]
pub struct BookField<'a> {
    pub tag: Tag,
    pub body: &'a [u8],
    pub rest: &'a [u8],
}

// The tag of a number, unless it is none of a book's or lower than the last one.
fn placed_tag(number: u8, last: u8, place: usize) -> Result<Tag, BookFault>
    ensures { PlacesTag last number place result }
{
    match Tag::try_from(number) {
        Ok(tag) if number >= last => Ok(tag),
        _ => Err(BookFault::UnknownTag(place)),
    }
}

// Why a field that is cut short is refused: by its tag, if that is told and refused, or else by its length.
fn cut_fault(cut: CutShort, last: u8, place: usize) -> BookFault
    ensures { result ≡ cut_fault last place cut }
{
    match cut {
        CutShort::Body(tag) => placed_tag(tag, last, place)
            .err()
            .unwrap_or(BookFault::WrongLength(place)),
        CutShort::Head => BookFault::WrongLength(place),
    }
}

// Whether a body has another length than its tag asks for. A number may have any.
fn is_wrong(tag: Tag, length: usize) -> bool
    ensures { result ≡ is_wrong (tag_number tag) length }
{
    match tag {
        Tag::Number => false,
        Tag::Row => length != 10,
        Tag::Definition => length != 2,
    }
}

// The field that bytes begin with, which stands at this place, after a field whose tag has the number `last`:
// a byte, since a `Tag` would ask more of whoever calls.
pub fn next_field(bytes: &[u8], last: u8, place: usize) -> Result<BookField<'_>, BookFault>
    ensures takes { TakesField last place bytes.now result }
    ensures cuts { Cuts bytes.now result }
{
    let field = split_field(bytes).map_err(|cut| cut_fault(cut, last, place))?;
    let tag = placed_tag(field.tag, last, place)?;
    if is_wrong(tag, field.body.len()) {
        return Err(BookFault::WrongLength(place));
    }
    Ok(BookField {
        tag,
        body: field.body,
        rest: field.rest,
    })
}
