// Replays the log steps.log on the arena arena.img in memory, and writes what each record answered.
#![tactic(auto)]

ghost use Rattle.std.specs.Counts.{IsPrefixLen};

mod claims;
mod transcript;

use filling::fill;
use std::io::Write;
use std::rt::Files;
use std::{fs, io};

// Reads the first bytes of a file, as many as there is room for; a missing file has none.
fn read_file(files: &impl Files, name: &str, room: &mut [u8]) -> usize
    ensures { IsPrefixLen result room.new }
{
    match fs::open(files, name) {
        Ok(mut file) => fill(&mut file, room),
        Err(_) => 0,
    }
}

fn main(rt: HostRuntime) -> io::Result<()> {
    // Room for one byte more than the longest arena, and the longest log, that is not refused.
    let mut arena = [0u8; 49153];
    let n = read_file(&rt, "arena.img", &mut arena);
    let mut log = [0u8; 8193];
    let m = read_file(&rt, "steps.log", &mut log);
    let mut out = [0u8; 65536];
    let k = transcript::transcript(&mut arena[..n], &log[..m], &mut out);
    rt.stdout().write_all(&out[..k])
}
