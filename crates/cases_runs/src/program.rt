// What such a program does: it runs the vectors that it reads from standard input, and prints the report.
use crate::run::run;
use crate::sort::Sort;
use anyhow::anyhow;
use std::io::Read;

// No contract speaks of what is read and printed; `run` says what the report is.
pub fn report<S: Sort, R: Input + Print + AllocGlobal>(rt: &R) -> anyhow::Result<()> {
    let mut input = Vec::new(rt.alloc());
    rt.reader().read_to_end(&mut input)?;
    let text = run::<S>(rt.alloc(), input.as_slice()).map_err(|_| anyhow!("out of memory"))?;
    rt.print(text.as_str())?;
    Ok(())
}
