// Compares a mask with a string, in time at most proportional to the product of their lengths.
ghost use Rattle.std.specs.Prelude.{◌≡◌, ◌<◌, ◌||◌, length, ◌==◌, ◌↔◌, IsTrue, EachIndex, slice_index};
ghost use Rattle.dialects.specs.Masks.{star, any_byte, mask_holds};
ghost use Rattle.dialects.specs.Cursors.{Sound, Begins, BeginsNext, Steps};

// What follows the last star of the mask, and the rest of the string on which it was tried last.
#[derive(Clone, Copy)]
pub(crate) struct Retry<'a> {
    mask: &'a [u8],
    text: &'a [u8],
}

// What is left of mask and string. Only the last star needs to be remembered: what stands before it
// was matched as early as can be, so no other choice leaves more of the string.
#[derive(Clone, Copy)]
pub(crate) struct Cursor<'a> {
    mask: &'a [u8],
    text: &'a [u8],
    retry: Option<Retry<'a>>,
}

// Whether a byte of a mask, which is no star, stands for a byte of a string.
fn stands_for(byte: u8, other: u8) -> bool
    ensures { result ≡ (byte == any_byte || byte == other) }
{
    byte == b'?' || byte == other
}

impl<'a> Retry<'a> {
    // The comparison that begins with this try.
    fn begin(self) -> Cursor<'a>
        ensures { Begins self.entry.mask.now self.entry.text.now result }
    {
        Cursor {
            mask: self.mask,
            text: self.text,
            retry: Some(self),
        }
    }

    // The comparison that begins with the next try, one byte further on, if there is a byte.
    fn begin_next(self) -> Option<Cursor<'a>>
        ensures { BeginsNext self.entry.mask.now self.entry.text.now result }
    {
        let (_, text) = self.text.split_first()?;
        Some(Retry { text, ..self }.begin())
    }
}

impl<'a> Cursor<'a> {
    // One step in a string that is not at its end; none where the mask can't match any more.
    fn step(self) -> Option<Cursor<'a>>
        requires { Sound self × (0 < length self.text.now) }
        ensures { Steps self.entry result }
    {
        match (self.mask, self.text) {
            ([b'*', mask @ ..], text) => Some(Retry { mask, text }.begin()),
            ([byte, mask @ ..], [other, text @ ..]) if stands_for(*byte, *other) => Some(Cursor {
                mask,
                text,
                ..self
            }),
            _ => self.retry?.begin_next(),
        }
    }
}

// Whether nothing but stars is left of a mask.
fn only_stars(mask: &[u8]) -> bool
    ensures { IsTrue result ↔ EachIndex mask.now (λ k. slice_index mask.now k ≡ star) }
{
    mask.iter().all(|byte| *byte == b'*')
}

// Whether a mask matches a string.
pub(crate) fn mask_matches<'a>(mask: &'a [u8], text: &'a [u8]) -> bool
    ensures { result ≡ mask_holds mask.now text.now }
{
    let mut at = Cursor {
        mask,
        text,
        retry: None,
    };
    while !at.text.is_empty() {
        let Some(next) = at.step() else {
            return false;
        };
        at = next;
    }
    only_stars(at.mask)
}
