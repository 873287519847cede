// A part of a row of bytes, told by its start and its length.
ghost use Rattle.std.specs.Prelude.{◌≡◌};
ghost use Rattle.fields.specs.Parts.{part_bytes};

// Where some bytes stand among others. No slice: whoever lends memory for parts doesn't lend the bytes with it.
#[derive(Clone, Copy, PartialEq, Eq, Debug, Default)]
pub struct Part {
    pub start: u16,
    pub length: u16,
}

impl Part {
    // The bytes of this part; what would lie past the end is left out.
    pub fn of(self, bytes: &[u8]) -> &[u8]
        ensures { result.now ≡ part_bytes bytes.now self }
    {
        let after = bytes.get(usize::from(self.start)..).unwrap_or(&[]);
        after.get(..usize::from(self.length)).unwrap_or(after)
    }
}
