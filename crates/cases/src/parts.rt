// Bytes parted by a mark, as words by one blank each.
ghost use Rattle.std.specs.Prelude.{◌≡◌, ◌∷◌, drop, Decides};
ghost use Rattle.std.specs.Iterator.{YieldsFirstRef, item_count};
ghost use Rattle.cases.specs.Splits.{split, Parted, FirstMark, Cuts, parts_after};
ghost use Rattle.cases.specs.Lefts.{parts_left};

// Parts that are taken off one by one. Two marks in a row, a first or a last one have an empty part beside them,
// and no bytes at all are one empty part. Not the library's `split`: its type holds a closure, which no signature can name.
#[derive(Clone, Copy, Drop)]
pub struct Parts<'a> {
    // none once the last part is taken
    rest: Option<&'a [u8]>,
    mark: u8,
}

// Where the first mark stands, if there is one.
fn first_mark(bytes: &[u8], mark: u8) -> Option<usize>
    ensures { FirstMark mark bytes.now result }
{
    bytes.iter().position(|b| *b == mark)
}

// Cuts bytes at the first mark, if there is one: what stands before it is the first part, and then what follows it.
pub fn cut(bytes: &[u8], mark: u8) -> Option<(&[u8], &[u8])>
    ensures value { Cuts mark bytes.now result }
    ensures first { split mark bytes.now ≡ parts_after mark bytes.now result }
    ensures law { Parted mark bytes.now (split mark bytes.now) }
{
    let i = first_mark(bytes, mark)?;
    Some((&bytes[..i], &bytes[i + 1..]))
}

impl<'a> Iterator for Parts<'a> {
    type Item = &'a [u8];

    ghost next_gives = { YieldsFirstRef parts_left };

    ghost remaining = { item_count parts_left };

    fn next(&mut self) -> Option<&'a [u8]> {
        let bytes = self.rest?;
        match cut(bytes, self.mark) {
            Some((part, rest)) => {
                self.rest = Some(rest);
                Some(part)
            }
            None => {
                self.rest = None;
                Some(bytes)
            }
        }
    }
}

impl<'a> Parts<'a> {
    // All the parts of the bytes.
    pub fn new(bytes: &'a [u8], mark: u8) -> Parts<'a>
        ensures { parts_left result ≡ split mark bytes.now }
    {
        Parts {
            rest: Some(bytes),
            mark,
        }
    }

    // Takes the next part off, and tells whether it is this one.
    pub fn next_is(&mut self, part: &[u8]) -> bool
        ensures value { Decides result (parts_left self.old ≡ part.now ∷ parts_left self.new) }
        ensures after { parts_left self.new ≡ drop 1 (parts_left self.old) }
    {
        self.next().is_some_and(|next| next == part)
    }
}
