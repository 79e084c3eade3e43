// The worked figures of document 01: those to be proved as one claim, and makings and checksums that are run.
#![tactic(auto)]

ghost use Rattle.cases.specs.Table.{table};
ghost use Rattle.cases.specs.Worked.{AllDue};

use arena::{info_block, make};
use filling::fill;
use fletcher::{block_checksum, fletcher64_of};
use infoblock::is_sound;
use machine::refusal::number_of;
use std::rt::Files;
use std::{fs, io};

// Cases 1 to 8 and that of 256 lanes: every value of the table is the one due.
pub fn p_cases()
    ensures cases { AllDue table }
{}

// Writes a text, a checksum and a newline.
fn show_sum(rt: &impl Print, text: &str, sum: u64) -> io::Result<()> {
    println!(rt; "{text}{sum:016x}")
}

// Makes an arena over bytes that are not zero, and writes the answer, its info block's checksum and the checksum of all its words.
fn show_made(
    rt: &impl Print,
    room: &mut [u8],
    size: u32,
    sectors: u32,
    lanes: u32,
) -> io::Result<()> {
    let made = make(
        room,
        size,
        sectors,
        lanes,
        b"first identifier",
        b"other identifier",
    );
    let length = room.len();
    let answer = number_of(made);
    println!(rt; "made {size} {sectors} {lanes} length {length} answer {answer}")?;
    if let Some(block) = info_block(&room[..]) {
        show_sum(rt, "info block ", block_checksum(block))?;
    }
    show_sum(rt, "whole arena ", fletcher64_of(&room[..], 0, length / 4))
}

// Reads an info block that another driver wrote, and writes its checksum and whether it is sound.
fn show_file(rt: &(impl Files + Print + Eprint), name: &str) -> io::Result<()> {
    let mut file = match fs::open(rt, name) {
        Ok(file) => file,
        Err(error) => return eprintln!(rt; "{name}: {error}"),
    };
    let mut block = [0u8; 4096];
    fill(&mut file, &mut block);
    print!(rt; "{name}")?;
    show_sum(rt, " ", block_checksum(&block))?;
    if is_sound(&block) {
        println!(rt; "sound")
    } else {
        println!(rt; "unsound")
    }
}

fn main(rt: HostRuntime) -> io::Result<()> {
    show_made(&rt, &mut [165u8; 49152], 512, 60, 4)?;
    show_made(&rt, &mut [165u8; 20480], 512, 1, 1)?;
    show_made(&rt, &mut [165u8; 24576], 4096, 1, 1)?;
    show_made(&rt, &mut [165u8; 290816], 512, 256, 256)?;
    show_file(&rt, "linux-6.1-512.info")?;
    show_file(&rt, "linux-6.1-520.info")?;
    show_file(&rt, "pmdk-1.12-512.info")
}
