// Lives the lives in numbers through the archive's operations, with the worked header and marks, and calls each operation
// with hostile bytes, lengths and numbers.
#![tactic(auto)]

use std::io;

mod bad;
mod coding_refused;
mod living;
mod losing;
mod one_place;
mod opening;
mod plans;
mod proving_refused;
mod reading_refused;

fn main(rt: HostRuntime) -> io::Result<()> {
    opening::run(&rt)?;
    living::run(&rt)?;
    bad::run(&rt)?;
    coding_refused::run(&rt)?;
    proving_refused::run(&rt)?;
    reading_refused::run(&rt)?;
    plans::run(&rt)?;
    losing::run(&rt)
}
