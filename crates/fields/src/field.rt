// A field: one byte of tag, two bytes of length with the high byte first, then a body of that many bytes.
ghost use Rattle.fields.specs.Fields.{Splits};

// No file is longer than this.
pub const LONGEST_FILE: usize = 65535;

// How many bytes come before the body: the tag, and two of length.
pub const HEAD: usize = 3;

// The field that bytes begin with, and what comes after it.
#[derive(Clone, Copy)]
pub struct Field<'a> {
    pub tag: u8,
    pub body: &'a [u8],
    pub rest: &'a [u8],
}

// Why bytes begin with no whole field.
#[derive(Clone, Copy, PartialEq, Eq, Debug)]
pub enum CutShort {
    // fewer than the three bytes of tag and length
    Head,
    // fewer bytes than the length says, after this tag
    Body(u8),
}

// Takes the first field off.
pub fn split_field(bytes: &[u8]) -> Result<Field<'_>, CutShort>
    ensures { Splits bytes.now result }
{
    let [tag, high, low, after @ ..] = bytes else {
        return Err(CutShort::Head);
    };
    let length = usize::from(u16::from_be_bytes([*high, *low]));
    let (body, rest) = after.split_at_checked(length).ok_or(CutShort::Body(*tag))?;
    Ok(Field {
        tag: *tag,
        body,
        rest,
    })
}
