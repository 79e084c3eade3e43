// Reports on an arena: reads it from standard input, opens it in memory and writes what it found.
#![tactic(auto)]

mod claims;
mod report;

use filling::fill;
use std::io;
use std::io::Write;

fn main(rt: HostRuntime) -> io::Result<()> {
    // Room for one byte more than the longest input that is not refused.
    let mut input = [0u8; 65537];
    let n = fill(&mut rt.stdin(), &mut input);
    let mut out = [0u8; 4096];
    let k = report::report(&mut input[..n], &mut out);
    rt.stdout().write_all(&out[..k])
}
