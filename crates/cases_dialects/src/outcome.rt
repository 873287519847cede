// What reading a file of patterns comes to, as a line states it: the count of the patterns, or a refusal.
ghost use Rattle.std.specs.Prelude.{◌≡◌, ℕ, IfOk, MatchOption, Result, string_bytes};
ghost use Rattle.cases.specs.Lefts.{parts_left};
ghost use Rattle.cases.specs.declared.outcome.Refused.{Refused};
ghost use Rattle.cases_dialects.specs.Expected.{Expects, came_of, outcome_text, Fitting};

use cases::outcome::{Refused, next_number, read_refusal};
use cases::parts::Parts;
use dialects::fault::PatternFault;
use faults::Refusal;
use std::alloc::{AllocError, Global};

// The outcome that the words left state, all of them: `ok COUNT`, or a refusal.
pub(crate) fn expected(words: Parts<'_>) -> Option<Result<usize, Refused>>
    ensures { MatchOption result ((x : Result ℕ Refused) → Expects (parts_left words.entry) x → ⊥) (Expects (parts_left words.entry)) }
{
    let mut rest = words;
    if !rest.next_is(b"ok") {
        return read_refusal(words).map(Err);
    }
    let count = next_number(&mut rest)?;
    if rest.next().is_some() {
        return None;
    }
    Some(Ok(count))
}

// The outcome that came. No pattern's refusal has a cause.
pub(crate) fn of_reading(reading: Result<usize, PatternFault>) -> Result<usize, Refused>
    ensures { result ≡ came_of reading }
{
    reading.map_err(|fault| Refused::from(Refusal::from(fault)))
}

// As a line writes it.
pub(crate) fn outcome_text(
    heap: Global,
    outcome: Result<usize, Refused>,
) -> Result<String, AllocError>
    ensures text { IfOk result (λ s. string_bytes s ≡ outcome_text outcome) }
    ensures fits { Fitting outcome }
{
    match outcome {
        Ok(count) => format!(in heap; "ok {count}"),
        Err(refused) => refused.to_string(heap),
    }
}
