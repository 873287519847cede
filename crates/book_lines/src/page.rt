// A page that the text of a book is written on: text by `write!`, and the book's numbers as their kind writes them.
ghost use Rattle.std.specs.Prelude.{◌≡◌, ◌++◌, IfOk, IfSome, OnOk};
ghost use Rattle.book_lines.specs.Lines.{number_text};
ghost use Rattle.book_lines.specs.Pages.{Adds};

use books::parts::number_at;
use kinds::number::Number;
use std::alloc::{AllocError, Global};
use std::fmt::Display;
use std::io::Write;

// What is written so far, and the book's numbers.
#[derive(Drop)]
pub(crate) struct Page<'a, K> {
    pub text: Vec<u8>,
    pub numbers: &'a [K],
    pub heap: Global,
}

impl<K: Number> Page<'_, K> {
    // What `write!` and `writeln!` call.
    pub(crate) fn write_fmt<D: Display + Drop>(&mut self, text: D) -> Result<(), AllocError>
        ensures { OnOk result (IfSome (D.output text) (Adds self.old self.new)) }
    {
        // nothing but memory can be short, since the page is memory
        Write::write_fmt(&mut self.text, text).map_err(|_| AllocError)
    }

    // These words, and then number i of the book.
    pub(crate) fn write_number(&mut self, words: &str, i: u16) -> Result<(), AllocError>
        ensures { OnOk result (Adds self.old self.new (words.now ++ number_text K.Number.kind self.old.numbers.now i)) }
    {
        let number = number_at(self.numbers, usize::from(i));
        let token = token_of(number, self.heap)?;
        write!(self, "{words}")?;
        self.text.extend_from_slice(token.as_slice())
    }
}

// The token of a number.
fn token_of<K: Number>(number: K, heap: Global) -> Result<Vec<u8>, AllocError>
    ensures { IfOk result (λ token. token.items ≡ K.Number.kind.written number) }
{
    let mut token = vec![in heap; 0_u8; number.token_length()]?;
    let _ = number.write(token.as_mut_slice());
    Ok(token)
}
