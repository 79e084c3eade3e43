// Making an arena.
#![tactic(auto)]

ghost use Rattle.std.specs.Prelude.{◌≡◌, ◌+◌, ◌*◌, ◌≤◌, ◌<◌, length};
ghost use Rattle.words.specs.Word.{put_words};
ghost use Rattle.layout.specs.Place.{layout_of};
ghost use Rattle.layout.specs.Told.{alone_near};
ghost use Rattle.infoblock.specs.Info.{info_words};
ghost use Rattle.machine.specs.state.Answer.{number_of};
ghost use Rattle.machine.specs.calls.Making.{fresh_lane, fresh_flog, data_end, tail_words, make_number, make_of};
ghost use Rattle.layout.specs.Fit.{Fit};
ghost use Rattle.making.specs.Gave.{make_gave, wanted_of};

use infoblock::put_info;
use layout::{Figures, fresh_figures, fresh_length, length_allowed, sizes_allowed};
use machine::refusal::Refusal;
use words::{put_word, zero_words};

// Stores a fresh lane's 16 words from word i on.
#[tactic(auto, using(crate::proofs::Laws::put_four))]
fn put_lane(a: &mut [u8], i: usize, sectors: u32, l: u32)
    requires { (4 * (i + 16) ≤ length a.old) × (sectors + l < 4294967296) }
    ensures { a.new ≡ put_words a.old i (fresh_lane sectors l) }
{
    put_word(a, i, l);
    put_word(a, i + 1, sectors + l);
    put_word(a, i + 2, sectors + l);
    put_word(a, i + 3, 1);
    zero_words(a, i + 4, 12);
}

// Stores a fresh flog of n lanes from word i on.
#[tactic(auto, using(crate::proofs::Laws::put_flog_more), unfolding(machine::specs::calls::Making::fresh_flog, words::specs::Word::put_words))]
fn put_flog(a: &mut [u8], i: usize, sectors: u32, n: u32)
    requires { (4 * (i + 16 * n) ≤ length a.old) × (sectors + n < 4294967296) }
    ensures { a.new ≡ put_words a.old i (fresh_flog sectors 0 n) }
{
    for l in 0..n {
        put_lane(a, i + 16 * (l as usize), sectors, l);
    }
}

// Stores all that follows the data blocks: padding, map, flog, padding and the copy of the info block.
fn put_tail(a: &mut [u8], f: Figures, first: &[u8], second: &[u8])
    requires fit { Fit alone_near.distance f (length a.old) }
    requires in_bounds { (16 ≤ length first.now) × (16 ≤ length second.now) }
    ensures { let g = layout_of alone_near.distance f in
        a.new ≡ put_words a.old (data_end g) (tail_words g (info_words first.now second.now f)) }
{
    let end = (f.dataoff / 4) as usize + (f.blocks as usize) * ((f.internal / 4) as usize);
    let flog = (f.flogoff / 4) as usize;
    let copy = (f.copyoff / 4) as usize;
    let flog_end = flog + 16 * (f.lanes as usize);
    zero_words(a, end, flog - end);
    put_flog(a, flog, f.sectors, f.lanes);
    zero_words(a, flog_end, copy - flog_end);
    put_info(a, copy, first, second, f);
}

// Why making is refused: 3, 1, 10 in that order.
#[tactic(auto, unfolding(machine::specs::calls::Making::make_number, machine::specs::Rules::answer))]
fn judge_make(
    total: usize,
    size: u32,
    sectors: u32,
    lanes: u32,
    first: &[u8],
    second: &[u8],
) -> Result<(), Refusal>
    ensures { number_of result ≡ make_number (wanted_of size sectors lanes first.now second.now) total }
{
    if !sizes_allowed(size, sectors, lanes) {
        return Err(Refusal::ForbiddenFigure);
    }
    if !length_allowed(total) || total as u64 != fresh_length(size, sectors, lanes) {
        return Err(Refusal::WrongLength);
    }
    if first.len() != 16 || second.len() != 16 {
        return Err(Refusal::WrongBuffer);
    }
    Ok(())
}

// Makes an arena of E sectors of S bytes with so many lanes in a slice of just the length that this works out.
pub fn make(
    arena: &mut [u8],
    size: u32,
    sectors: u32,
    lanes: u32,
    first: &[u8],
    second: &[u8],
) -> Result<(), Refusal>
    ensures { make_gave result arena.new
        ≡ make_of (wanted_of size sectors lanes first.now second.now) arena.old }
{
    judge_make(arena.len(), size, sectors, lanes, first, second)?;
    let f = fresh_figures(size, sectors, lanes);
    put_info(arena, 0, first, second, f);
    put_tail(arena, f, first, second);
    Ok(())
}
