// Runs the test vectors of the dialects, which it reads from standard input, and prints what differs.
#![tactic(auto)]

mod bits;
mod outcome;
mod sorts;

use crate::sorts::PatternSort;
use cases_runs::program::report;

fn main(rt: HostRuntime) -> anyhow::Result<()> {
    report::<PatternSort, _>(&rt)
}
