// The lines of an input, taken off one by one.
#![tactic(auto)]

ghost use Rattle.std.specs.Prelude.{◌≡◌, ◌<◌, length, ◌==◌};
ghost use Rattle.std.specs.List.{position};
ghost use Rattle.std.specs.Iterator.{YieldsFirstRef, item_count};
ghost use Rattle.lines.specs.Lines.{FirstLine, lines as lines_of};

// What is left of an input. A line feed closes a line, and the last may lack it.
#[derive(Clone, Copy, Drop)]
pub struct Lines<'a> {
    rest: &'a [u8],
}

// Where the first line is closed, if it is.
fn line_end(bytes: &[u8]) -> Option<usize>
    ensures { result ≡ position (λ byte. byte == 10) bytes.now }
{
    bytes.iter().position(|byte| *byte == b'\n')
}

// Takes the first line off, without the byte that closes it.
// Not the library's `split_inclusive`: it leaves that byte on, and says of the pieces only one by one what they are.
// Not the `cut` of `cases`: that one knows any mark, and no part that lacks its own.
fn split_line(bytes: &[u8]) -> (&[u8], &[u8])
    ensures { 0 < length bytes.now → FirstLine bytes.now result.0.now result.1.now }
{
    match line_end(bytes) {
        Some(end) => (&bytes[..end], &bytes[end + 1..]),
        None => (bytes, &[]),
    }
}

impl<'a> Lines<'a> {
    // All the lines of an input.
    pub fn of(input: &'a [u8]) -> Lines<'a>
        ensures { result.rest.now ≡ input.now }
    {
        Lines { rest: input }
    }
}

impl<'a> Iterator for Lines<'a> {
    type Item = &'a [u8];

    ghost next_gives = { YieldsFirstRef (λ s. lines_of s.rest.now) };

    ghost remaining = { item_count (λ s. lines_of s.rest.now) };

    fn next(&mut self) -> Option<&'a [u8]> {
        if self.rest.is_empty() {
            return None;
        }
        let (line, rest) = split_line(self.rest);
        self.rest = rest;
        Some(line)
    }
}
