// Runs the vectors of RFC 8439 and FIPS 197, the worked values and hostile calls through the public functions below the archive.
#![tactic(auto)]

use std::io;

mod audits;
mod choosing;
mod elimination;
mod fips197;
mod key_vector;
mod masks;
mod packing;
mod rfc8439;

fn main(rt: HostRuntime) -> io::Result<()> {
    rfc8439::run(&rt)?;
    fips197::run(&rt)?;
    packing::run(&rt)?;
    key_vector::run(&rt)?;
    masks::run(&rt)?;
    audits::run(&rt)?;
    elimination::run(&rt)?;
    choosing::run(&rt)
}
