// Reads the files of patterns.
ghost use Rattle.dialects.specs.Files.{Outcome, Only, After, room};
ghost use Rattle.dialects.specs.Reading.{Takes, Fills};

use crate::fault::PatternFault;
use crate::limits::MOST_PATTERNS;
use crate::masks::Wildcards;
use crate::names::Exact;
use crate::syntax::Syntax;
use fields::field::{CutShort, Field, HEAD, LONGEST_FILE, split_field};
use fields::part::Part;
use lists::lent::LentList;

const LONGEST_PATTERN: usize = 255;

// The field of the pattern that bytes begin with, which stands at this place.
fn pattern_field<S: Syntax>(bytes: &[u8], place: usize) -> Result<Field<'_>, PatternFault>
    ensures { Takes S.TAG place bytes.now result }
{
    let field = split_field(bytes).map_err(|cut| match cut {
        CutShort::Body(tag) if tag != S::TAG => PatternFault::UnknownTag(place),
        _ => PatternFault::WrongLength(place),
    })?;
    if field.tag != S::TAG {
        return Err(PatternFault::UnknownTag(place));
    }
    if field.body.len() > LONGEST_PATTERN {
        return Err(PatternFault::WrongLength(place));
    }
    Ok(field)
}

// Fills in the parts of a file's patterns, up to the first field that is refused.
fn fill<S: Syntax>(bytes: &[u8], parts: &mut [Part]) -> Result<usize, PatternFault>
    ensures { Fills S.TAG bytes.now parts.old parts.new result }
{
    if bytes.len() > LONGEST_FILE {
        return Err(PatternFault::FileTooLong);
    }
    let mut found = LentList::new(parts, MOST_PATTERNS);
    let mut rest = bytes;
    // no iterator over fields: where one is cut short, each file's reader tells so by a fault of its own
    while !rest.is_empty() {
        let place = bytes.len() - rest.len();
        let field = pattern_field::<S>(rest, place)?;
        let part = Part {
            start: (place + HEAD) as u16,
            length: field.body.len() as u16,
        };
        found.push(part).ok_or(PatternFault::TooMany(place))?;
        rest = field.rest;
    }
    Ok(found.len())
}

// Reads a file of patterns of this syntax: the count of its patterns, and a part of the file for each.
#[tactic(auto, using(crate::proofs::Outcomes::only_from, crate::proofs::Outcomes::filled_after))]
fn read_list<S: Syntax>(bytes: &[u8], parts: &mut [Part]) -> Result<usize, PatternFault>
    ensures outcome { Outcome S.TAG (room parts.old) bytes.now result }
    ensures only { Only S.TAG (room parts.old) bytes.now result }
    ensures memory { After S.TAG bytes.now parts.old parts.new result }
{
    let read = fill::<S>(bytes, parts);
    if read.is_err() {
        parts.fill(Part::default());
    }
    read
}

// Reads a names file. This and the next are instances with a name of their own, whose promise names a file's tag and no syntax.
pub fn read_names(bytes: &[u8], parts: &mut [Part]) -> Result<usize, PatternFault>
    ensures outcome { Outcome 4 (room parts.old) bytes.now result }
    ensures only { Only 4 (room parts.old) bytes.now result }
    ensures memory { After 4 bytes.now parts.old parts.new result }
{
    read_list::<Exact>(bytes, parts)
}

// Reads a masks file.
pub fn read_masks(bytes: &[u8], parts: &mut [Part]) -> Result<usize, PatternFault>
    ensures outcome { Outcome 5 (room parts.old) bytes.now result }
    ensures only { Only 5 (room parts.old) bytes.now result }
    ensures memory { After 5 bytes.now parts.old parts.new result }
{
    read_list::<Wildcards>(bytes, parts)
}
