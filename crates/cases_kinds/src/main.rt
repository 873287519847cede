// Runs the test vectors of the number kinds, which it reads from standard input, and prints what differs.
#![tactic(auto)]

mod answers;
mod sorts;

use crate::sorts::KindSort;
use cases_runs::program::report;

fn main(rt: HostRuntime) -> anyhow::Result<()> {
    report::<KindSort, _>(&rt)
}
