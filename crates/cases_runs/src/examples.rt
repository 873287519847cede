// A worked example of sorts that stand in memory: what the loudspeakers of a station say.
ghost use Rattle.std.specs.Prelude.{◌≡◌, ◌∷◌, [], true, false, cond, codes};
ghost use Rattle.cases.specs.Splits.{joined_by};
ghost use Rattle.cases_runs.specs.declared.examples.Speaker.{Speaker};

use crate::listed::ListedSort;
use crate::run::run;
use crate::sort::{Case, Sort};
use crate::words::rest_of;
use cases::fault::LineFault;
use cases::parts::Parts;
use std::alloc::Global;

// A loudspeaker says what it is given, unless it is turned off.
#[derive(Clone, Copy, PartialEq, Eq, Debug)]
struct Speaker {
    is_on: bool,
}

const ON: Speaker = Speaker { is_on: true };

const OFF: Speaker = Speaker { is_on: false };

impl ListedSort for Speaker {
    ghost sorts = { record { is_on = true } ∷ record { is_on = false } ∷ [] };

    ghost word = { λ s. cond s.is_on (codes "on") (codes "off") };

    ghost comes = { λ s words expected came. (expected ≡ joined_by 32 words) × (came ≡ cond s.is_on (joined_by 32 words) []) };

    fn all<'a>() -> &'a [Speaker] {
        &[ON, OFF]
    }

    fn name(self) -> &'static str {
        if self.is_on { "on" } else { "off" }
    }

    fn run(self, heap: Global, words: Parts<'_>) -> Result<Case, LineFault> {
        let expected = rest_of(heap, words)?;
        let came = if self.is_on {
            rest_of(heap, words)?
        } else {
            String::new(heap)
        };
        Ok(Case { expected, came })
    }
}

#[test]
fn a_slice_tells_its_sorts(rt: HostRuntime) {
    assert_eq!(rt; Speaker::all(), [ON, OFF].as_slice());
    assert_eq!(rt; Speaker::count(), 2);
    assert_eq!(rt; Speaker::at(0), Some(ON));
    assert_eq!(rt; Speaker::at(1), Some(OFF));
    assert_eq!(rt; Speaker::at(2), None);
}

#[test]
fn listed_sorts_are_run(rt: HostRuntime) {
    let lines = b"on 1 - mind the gap\noff 2 - mind the gap\nloud 3 - mind the gap\n";
    let report = run::<Speaker>(rt.alloc(), lines)
        .ok()
        .expect(&rt, "there is memory");
    let told =
        "off 2: expected mind the gap, came \nline 3 can't be read\non: 1 cases, 0 differ\noff: 1 cases, 1 differ\nunread: 1 cases, 1 differ\n3 cases, 2 differ\n";
    assert!(rt; report.as_str() == told);
}
