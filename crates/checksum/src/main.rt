// Writes the Fletcher64 checksum of a run of words from standard input. Of 4,096 bytes, as long as an info block, it also writes the
// block's checksum, whose field counts as zero, and whether the block is sound.
#![tactic(auto)]

use filling::fill;
use fletcher::{block_checksum, fletcher64_of};
use infoblock::is_sound;
use std::io;

// Writes a checksum and a text.
fn put(rt: &impl Print, sum: u64, text: &str) -> io::Result<()> {
    print!(rt; "{sum:016x}{text}")
}

// Writes the checksums of a run; one that is too long, or ends within a word, is refused.
fn put_run(rt: &impl Print, run: &[u8]) -> io::Result<()> {
    if run.len() > 65536 || run.len() % 4 != 0 {
        return println!(rt; "refused 1");
    }
    put(rt, fletcher64_of(run, 0, run.len() / 4), "\n")?;
    if run.len() == 4096 {
        let verdict = if is_sound(run) {
            " sound\n"
        } else {
            " unsound\n"
        };
        put(rt, block_checksum(run), verdict)?;
    }
    Ok(())
}

fn main(rt: HostRuntime) -> io::Result<()> {
    // Room for one byte more than the longest run that is not refused.
    let mut input = [0u8; 65537];
    let n = fill(&mut rt.stdin(), &mut input);
    put_run(&rt, &input[..n])
}
