// The answers of a dialect, one bit for each pattern number.
ghost use Rattle.std.specs.Prelude.{◌≡◌, ◌+◌, ◌<◌, IfOk, if◌then◌else◌, string_bytes};
ghost use Rattle.dialects.specs.Dialects.{answer};
ghost use Rattle.cases_dialects.specs.Bits.{bits};

use dialects::dialect::Dialect;
use std::alloc::{AllocError, Global};

// The bit of an answer: the library has no character of a boolean.
fn bit(yes: bool) -> char
    ensures { (result ≡ (if yes then 49 else 48)) × (result < 128) }
{
    if yes { '1' } else { '0' }
}

// `1` or `0` for each number from 0 to one past the count: whether the pattern matches.
pub(crate) fn answer_bits<D: Dialect>(
    heap: Global,
    dialect: &D,
    text: &[u8],
) -> Result<String, AllocError>
    ensures { IfOk result (λ s. string_bytes s ≡ bits (λ k. answer (D.Dialect.count dialect.now) (D.Dialect.holds dialect.now) k text.now) (D.Dialect.count dialect.now + 2)) }
{
    (0..dialect.pattern_count() + 2)
        .map(|pattern| bit(dialect.is_match(pattern, text)))
        .collect(heap)
}
