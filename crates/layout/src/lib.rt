// The figures of an arena: which are allowed, which making works out, and where each part's words are.
#![tactic(auto)]

pub mod claims;

ghost use Rattle.std.specs.Prelude.{◌≡◌, true, ℕ, ◌+◌, ◌*◌, ◌/◌, ◌≤◌, ◌<◌, length, MatchOption};
ghost use Rattle.layout.specs.Sizes.{max_size, internal_of, size_allowed};
ghost use Rattle.layout.specs.Figures.{length_allowed, counts_allowed, sizes_allowed, starts_aligned, parts_in_order, figures_allowed};
ghost use Rattle.layout.specs.Figures.{round_up, map_start, flog_start, copy_start, fresh_length, fresh_figures, figures_at};
ghost use Rattle.layout.specs.Place.{layout_of, in_data, in_map, in_flog, at, lane_word_at, is_padding};
ghost use Rattle.layout.specs.Told.{alone, distance_allowed};

use format::numbers::{BlockNo, LaneNo, SectorNo};
use words::{long_at, word_at};

// The most lanes that an arena has.
pub const MAX_LANES: u32 = 256;

// The most bytes of a sector.
pub const MAX_SIZE: usize = 4104;

// The two layouts: a lane's second half starts so many bytes after the first. The report and a replay use the near one.
pub const NEAR: u32 = 16;

pub const FAR: u32 = 32;

// The words of a half of a lane's flog.
const HALF_WORDS: usize = 4;

// The figures of an arena, as its info block has them; starts are in bytes.
#[derive(Clone, Copy, Debug, PartialEq, Eq)]
pub struct Figures {
    // S: bytes of a sector.
    pub size: u32,
    // E: sectors.
    pub sectors: u32,
    // The internal size: bytes from one block to the next.
    pub internal: u32,
    // I: blocks.
    pub blocks: u32,
    // Lanes (nfree).
    pub lanes: u32,
    // Starts of data, map, flog and the info block's copy.
    pub dataoff: u64,
    pub mapoff: u64,
    pub flogoff: u64,
    pub copyoff: u64,
}

// What an opening is told: the next arena that the info block must name, and the bytes between the starts of a lane's two halves.
#[derive(Clone, Copy, Debug, PartialEq, Eq)]
pub struct Told {
    pub next: u64,
    pub distance: u32,
}

// What the opening of an arena by itself is told, in the layout whose halves start d bytes apart.
pub fn alone(d: u32) -> Told
    ensures { result ≡ alone d }
{
    Told {
        next: 0,
        distance: d,
    }
}

// Rule 16, of a layout: whether a lane's halves may start d bytes apart.
pub fn distance_allowed(d: u32) -> bool
    ensures { result ≡ distance_allowed d }
{
    d == NEAR || d == FAR
}

// The five figures from word i on and the four starts from word j on.
pub fn figures_at(b: &[u8], i: usize, j: usize) -> Figures
    requires { (4 * (i + 5) ≤ length b.now) × (4 * (j + 8) ≤ length b.now) }
    ensures { result ≡ figures_at b.now i j }
{
    Figures {
        size: word_at(b, i),
        sectors: word_at(b, i + 1),
        internal: word_at(b, i + 2),
        blocks: word_at(b, i + 3),
        lanes: word_at(b, i + 4),
        dataoff: long_at(b, j),
        mapoff: long_at(b, j + 2),
        flogoff: long_at(b, j + 4),
        copyoff: long_at(b, j + 6),
    }
}

// The table of sector sizes, each with its internal size, the bytes of a block; none for any other number.
#[tactic(auto, unfolding(crate::specs::Sizes::internal_of))]
pub fn internal_of(size: u32) -> Option<u32>
    ensures { MatchOption result (internal_of size ≡ 0) (λ n. (n ≡ internal_of size) × (1 ≤ n)) }
{
    match size {
        512 => Some(512),
        520 => Some(576),
        528 => Some(576),
        4096 => Some(4096),
        4104 => Some(4160),
        _ => None,
    }
}

// The internal size of an allowed sector size.
fn internal_size(size: u32) -> u32
    requires { size_allowed size ≡ true }
    ensures { result ≡ internal_of size }
{
    internal_of(size).unwrap()
}

// Rule 1: whether a slice of that length can be an arena.
pub fn length_allowed(length: usize) -> bool
    ensures { result ≡ length_allowed length }
{
    length % 4096 == 0 && 20480 <= length && length <= 16777216
}

// Whether a number of sectors and a number of lanes are allowed.
fn counts_allowed(sectors: u32, lanes: u32) -> bool
    ensures { result ≡ counts_allowed sectors lanes }
{
    lanes <= sectors && 1 <= lanes && lanes <= MAX_LANES
}

// Whether a sector size, a number of sectors and a number of lanes are allowed.
pub fn sizes_allowed(size: u32, sectors: u32, lanes: u32) -> bool
    ensures { result ≡ sizes_allowed size sectors lanes }
{
    internal_of(size).is_some() && counts_allowed(sectors, lanes)
}

// Whether the four starts are multiples of 4,096.
fn starts_aligned(f: Figures) -> bool
    ensures { result ≡ starts_aligned f }
{
    f.dataoff % 4096 == 0 && f.mapoff % 4096 == 0 && f.flogoff % 4096 == 0 && f.copyoff % 4096 == 0
}

// Whether each part ends at or before the next start, from the copy's start down, so that no sum can wrap.
fn parts_in_order(f: Figures, length: usize) -> bool
    requires { (4096 ≤ length) × (length ≤ 16777216) }
    ensures { result ≡ parts_in_order f length }
{
    f.copyoff == (length - 4096) as u64
        && f.flogoff <= f.copyoff
        && f.flogoff + 64 * (f.lanes as u64) <= f.copyoff
        && f.mapoff <= f.flogoff
        && f.mapoff + 4 * (f.sectors as u64) <= f.flogoff
        && f.dataoff <= f.mapoff
        && f.dataoff + (f.blocks as u64) * (f.internal as u64) <= f.mapoff
        && 4096 <= f.dataoff
}

// Whether every figure is allowed in an arena of that length.
#[tactic(auto, unfolding(crate::specs::Figures::figures_allowed))]
pub fn figures_allowed(f: Figures, length: usize) -> bool
    requires { (4096 ≤ length) × (length ≤ 16777216) }
    ensures { result ≡ figures_allowed f length }
{
    internal_of(f.size) == Some(f.internal)
        && counts_allowed(f.sectors, f.lanes)
        && f.blocks as u64 == f.sectors as u64 + f.lanes as u64
        && starts_aligned(f)
        && parts_in_order(f, length)
}

// The least multiple of 4,096 that is n or more; std has no method for it.
fn round_up(n: u64) -> u64
    requires { n < 1125899906842624 }
    ensures { result ≡ round_up n }
{
    (n + 4095) / 4096 * 4096
}

// The starts of map, flog and copy that making works out.
#[derive(Clone, Copy)]
struct Starts {
    mapoff: u64,
    flogoff: u64,
    copyoff: u64,
}

fn fresh_starts(size: u32, sectors: u32, lanes: u32) -> Starts
    requires { sizes_allowed size sectors lanes ≡ true }
    ensures mapoff { result.mapoff ≡ map_start size sectors lanes }
    ensures flogoff { result.flogoff ≡ flog_start size sectors lanes }
    ensures copyoff { result.copyoff ≡ copy_start size sectors lanes }
{
    let blocks = sectors as u64 + lanes as u64;
    let mapoff = round_up(4096 + blocks * (internal_size(size) as u64));
    let flogoff = round_up(mapoff + 4 * (sectors as u64)); // A map word is four bytes.
    let copyoff = round_up(flogoff + 64 * (lanes as u64));
    Starts {
        mapoff,
        flogoff,
        copyoff,
    }
}

// The length that making works out.
#[tactic(auto, unfolding(crate::specs::Figures::fresh_length))]
pub fn fresh_length(size: u32, sectors: u32, lanes: u32) -> u64
    requires { sizes_allowed size sectors lanes ≡ true }
    ensures { result ≡ fresh_length size sectors lanes }
{
    fresh_starts(size, sectors, lanes).copyoff + 4096
}

// The figures that making works out, for a length that is allowed.
pub fn fresh_figures(size: u32, sectors: u32, lanes: u32) -> Figures
    requires { (sizes_allowed size sectors lanes ≡ true) × (fresh_length size sectors lanes ≤ 16777216) }
    ensures { result ≡ fresh_figures size sectors lanes }
{
    let starts = fresh_starts(size, sectors, lanes);
    Figures {
        size,
        sectors,
        internal: internal_size(size),
        blocks: sectors + lanes,
        lanes,
        dataoff: 4096,
        mapoff: starts.mapoff,
        flogoff: starts.flogoff,
        copyoff: starts.copyoff,
    }
}

// The word number of a sector's map word.
pub fn map_place(f: Figures, sector: SectorNo) -> usize
    ensures { (d : ℕ) → result ≡ at (layout_of d f) (in_map sector.0) }
{
    (f.mapoff / 4) as usize + sector.0 as usize
}

// The word number of word k of a half of a lane's flog, where the halves start d bytes apart.
pub fn flog_place(f: Figures, d: u32, lane: LaneNo, half: u32, k: usize) -> usize
    requires { (half < 3) × (k < 4) }
    ensures { result ≡ at (layout_of d f) (in_flog lane.0 half k) }
{
    (f.flogoff / 4) as usize + (16 * (lane.0 as usize) + (half as usize * ((d / 4) as usize) + k))
}

// The word number of word k of a lane's 16.
pub fn lane_place(f: Figures, lane: LaneNo, k: usize) -> usize
    requires { k < 16 }
    ensures { (d : ℕ) → result ≡ lane_word_at (layout_of d f) lane.0 k }
{
    (f.flogoff / 4) as usize + (16 * (lane.0 as usize) + k)
}

// Whether word k of a lane's 16 is padding, where the halves start d bytes apart.
pub fn is_padding(d: u32, k: usize) -> bool
    ensures { result ≡ is_padding (d / 4) k }
{
    let second = (d / 4) as usize;
    HALF_WORDS <= k && (k < second || second + HALF_WORDS <= k)
}

// The word number of word k of a block.
pub fn data_place(f: Figures, block: BlockNo, k: usize) -> usize
    requires { k < max_size }
    ensures { (d : ℕ) → result ≡ at (layout_of d f) (in_data block.0 k) }
{
    (f.dataoff / 4) as usize + (block.0 as usize * ((f.internal / 4) as usize) + k)
}
