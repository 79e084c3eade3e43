// Reading a sector.
#![tactic(auto)]

ghost use Rattle.std.specs.Prelude.{◌≡◌, ◌+◌, ◌*◌, ◌≤◌, length};
ghost use Rattle.words.specs.Word.{put_words, words_from};
ghost use Rattle.format.specs.MapWord.{flags_of, reading_of, reading_number};
ghost use Rattle.machine.specs.state.Answer.{number_of};
ghost use Rattle.machine.specs.calls.Reading.{read_of, read_number};
ghost use Rattle.seen.specs.Seen.{Saw, Every};
ghost use Rattle.reading.specs.Gave.{read_gave};

use format::map::{MapState, Reading, block_of, judge_word};
use format::numbers::SectorNo;
use lanes::map_word;
use layout::data_place;
use machine::handle::Handle;
use machine::refusal::Refusal;
use seen::{Seen, judge_table};
use words::{put_word, word_at, zero_words};

// What a read of a sector with that map word gives.
fn reading_of(word: u32) -> Reading
    ensures { reading_number result ≡ reading_of (flags_of word) }
{
    MapState::of_word(word).reading()
}

// Judges a read: the first rule of its order that applies.
fn judge_read(
    arena: &[u8],
    h: Handle,
    seen: Seen,
    sector: SectorNo,
    buffer: &[u8],
) -> Result<(), Refusal>
    requires { Saw h 0 0 seen }
    ensures { Every h 0 0 seen (λ k. number_of result ≡ read_number arena.now k sector.0 buffer.now) }
{
    judge_table(arena.len(), h, seen)?;
    let f = h.figures;
    if f.sectors <= sector.0 {
        return Err(Refusal::NoSuchSector);
    }
    if buffer.len() != f.size as usize {
        return Err(Refusal::WrongBuffer);
    }
    let word = map_word(arena, f, sector);
    judge_word(f.blocks, word)?;
    match reading_of(word) {
        Reading::BadSector => Err(Refusal::BadSector),
        Reading::Zeroes | Reading::Bytes => Ok(()),
    }
}

// Copies n words, from word i of the arena on, to the start of the buffer.
fn copy_words(arena: &[u8], i: usize, buffer: &mut [u8], n: usize)
    requires { (4 * (i + n) ≤ length arena.now) × (4 * n ≤ length buffer.old) }
    ensures { buffer.new ≡ put_words buffer.old 0 (words_from arena.now i n) }
{
    for k in 0..n {
        put_word(buffer, k, word_at(arena, i + k));
    }
}

// Reads a sector into a buffer of a sector's length, by what was seen of the table: the block's bytes, or zeroes; a refusal leaves the buffer.
pub fn read_seen(
    arena: &[u8],
    h: Handle,
    seen: Seen,
    sector: SectorNo,
    buffer: &mut [u8],
) -> Result<(), Refusal>
    requires { Saw h 0 0 seen }
    ensures { Every h 0 0 seen (λ k. read_gave result buffer.new ≡ read_of arena.now k sector.0 buffer.old) }
{
    judge_read(arena, h, seen, sector, &buffer[..])?;
    let f = h.figures;
    let words = (f.size / 4) as usize;
    let found = map_word(arena, f, sector);
    match reading_of(found) {
        Reading::Bytes => {
            let place = data_place(f, block_of(sector, found), 0);
            copy_words(arena, place, buffer, words);
        }
        Reading::Zeroes | Reading::BadSector => zero_words(buffer, 0, words),
    }
    Ok(())
}
