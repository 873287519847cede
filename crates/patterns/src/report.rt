// The lines that the program prints.
ghost use Rattle.std.specs.Prelude.{◌≡◌, ◌++◌, IfOk, OnOk, Some};
ghost use Rattle.dialects.specs.Dialects.{answer};
ghost use Rattle.patterns.specs.Report.{passing, numbers_shown, line as line_of, report as report_of};

use dialects::dialect::Dialect;
use lines::Lines;
use std::alloc::{AllocError, Global};
use std::fmt;

// The numbers of the patterns that match a text.
fn matching<D: Dialect>(heap: Global, dialect: &D, text: &[u8]) -> Result<Vec<usize>, AllocError>
    ensures { IfOk result (λ v. v.items ≡ passing (λ k. answer (D.Dialect.count dialect.now) (D.Dialect.holds dialect.now) k text.now) (D.Dialect.count dialect.now)) }
{
    (0..dialect.pattern_count())
        .filter(|pattern| dialect.is_match(*pattern, text))
        .collect(heap)
}

// Such numbers, to be printed.
#[derive(Drop)]
struct Numbers(Vec<usize>);

// Each number behind a blank; a word where there is none.
impl fmt::Display for Numbers {
    ghost output = { λ numbers. Some (numbers_shown numbers.0.items) };

    fn fmt<W: fmt::Write>(&self, f: &mut fmt::Formatter<W>) -> fmt::Result {
        if self.0.is_empty() {
            return write!(f, " none");
        }
        for number in &self.0 {
            write!(f, " {number}")?;
        }
        Ok(())
    }
}

// Puts the line of a text at the end. Where no pattern matches, as for most texts, there is nothing to format, so nothing is.
fn add_line(
    out: &mut Vec<u8>,
    heap: Global,
    text: &[u8],
    numbers: Numbers,
) -> Result<(), AllocError>
    ensures { OnOk result (out.new.items ≡ out.old.items ++ line_of text.now numbers.0.items) }
{
    out.extend_from_slice(text)?;
    if numbers.0.is_empty() {
        return out.extend_from_slice(b": none\n");
    }
    let shown = format!(in heap; ":{numbers}\n")?;
    out.extend_from_slice(shown.as_bytes())
}

// The lines of all texts of an input, one text to a line.
pub(crate) fn report<D: Dialect>(
    heap: Global,
    dialect: &D,
    input: &[u8],
) -> Result<Vec<u8>, AllocError>
    ensures { IfOk result (λ v. v.items ≡ report_of (D.Dialect.count dialect.now) (answer (D.Dialect.count dialect.now) (D.Dialect.holds dialect.now)) input.now) }
{
    let mut out = Vec::new(heap);
    for text in Lines::of(input) {
        let numbers = Numbers(matching(heap, dialect, text)?);
        add_line(&mut out, heap, text, numbers)?;
    }
    Ok(out)
}
