// The info block: sound or not, which of two counts, its figures, and a made one. No other crate reads its words.
#![tactic(auto)]

pub mod claims;

ghost use Rattle.std.specs.Prelude.{◌≡◌, ◌+◌, ◌*◌, ◌/◌, ◌%◌, ◌≤◌, ◌<◌, length, [], MatchOption, IfSome};
ghost use Rattle.words.specs.Word.{put_words};
ghost use Rattle.infoblock.specs.Info.{signed, sound, counts_of, counts_number, counting_of, flags_allowed, figures_of};
ghost use Rattle.infoblock.specs.Info.{header_allowed, info_allowed, head_words, info_words};

use fletcher::{Sums, block_checksum};
use layout::{Figures, Told, figures_allowed, figures_at};
use words::{long_at, put_long, put_word, word_at, zero_words};

// BTT_ARENA_INFO and two zero bytes, as words.
const SIGNATURE: [u32; 4] = [0x5F54_5442, 0x4E45_5241, 0x4E49_5F41, 0x0000_4F46];

// Whether a block begins with the signature.
fn is_signed(b: &[u8]) -> bool
    requires { 16 ≤ length b.now }
    ensures { result ≡ signed b.now }
{
    for (k, word) in SIGNATURE.iter().enumerate() {
        if word_at(b, k) != *word {
            return false;
        }
    }
    true
}

// Whether a block is sound: 4,096 bytes whose signature and checksum match.
#[tactic(auto, unfolding(crate::specs::Info::sound))]
pub fn is_sound(b: &[u8]) -> bool
    ensures { result ≡ sound b.now }
{
    b.len() == 4096 && is_signed(b) && long_at(b, 1022) == block_checksum(b)
}

// The two places of an info block.
#[derive(Clone, Copy, Debug, PartialEq, Eq)]
pub enum Part {
    Main,
    Copy,
}

// Which of two blocks counts: the first if sound, else the copy if sound, else neither.
#[tactic(auto, unfolding(crate::specs::Info::counts_of))]
pub fn which_counts(main: &[u8], copy: &[u8]) -> Option<Part>
    ensures { counts_number result ≡ counts_of main.now copy.now }
{
    if is_sound(main) {
        Some(Part::Main)
    } else if is_sound(copy) {
        Some(Part::Copy)
    } else {
        None
    }
}

// The block that counts, as the caller's own bytes.
#[tactic(auto, using(crate::proofs::InfoBlock::counts_as, crate::proofs::InfoBlock::main_whole, crate::proofs::InfoBlock::copy_whole))]
pub fn counting<'a>(main: &'a [u8], copy: &'a [u8]) -> Option<&'a [u8]>
    ensures bytes { MatchOption result (counting_of main.now copy.now ≡ []) (λ b. b.now ≡ counting_of main.now copy.now) }
    ensures whole { IfSome result (λ b. length b.now ≡ 4096) }
{
    match which_counts(main, copy)? {
        Part::Main => Some(main),
        Part::Copy => Some(copy),
    }
}

// Whether a block's flags are allowed.
pub fn flags_allowed(b: &[u8]) -> bool
    requires { 4096 ≤ length b.now }
    ensures { result ≡ flags_allowed b.now }
{
    word_at(b, 12) == 0
}

// The figures of a block.
#[tactic(auto, unfolding(crate::specs::Info::figures_of))]
pub fn figures_of(b: &[u8]) -> Figures
    requires { 4096 ≤ length b.now }
    ensures { result ≡ figures_of b.now }
{
    figures_at(b, 14, 22)
}

// Whether version and info size are allowed, and the next arena is the one given.
#[tactic(auto, unfolding(crate::specs::Info::header_allowed))]
fn header_allowed(b: &[u8], next: u64) -> bool
    requires { 4096 ≤ length b.now }
    ensures { result ≡ header_allowed next b.now }
{
    let version = word_at(b, 13);
    version % 65536 == 2 && version / 65536 == 0 && word_at(b, 19) == 4096 && long_at(b, 20) == next
}

// Rule 3: whether every figure of the table is allowed, flags apart.
pub fn info_allowed(b: &[u8], told: Told, total: usize) -> bool
    requires { (4096 ≤ length b.now) × (4096 ≤ total) × (total ≤ 16777216) }
    ensures { result ≡ info_allowed told b.now total }
{
    header_allowed(b, told.next) && figures_allowed(figures_of(b), total)
}

// The low and the high word of a 64-bit number: a remainder and a quotient, with no form in common that is plainer.
fn low_word(n: u64) -> u32
    ensures { result ≡ n % 4294967296 }
{
    (n % 4294967296) as u32
}

fn high_word(n: u64) -> u32
    ensures { result ≡ n / 4294967296 }
{
    (n / 4294967296) as u32
}

// The first words of a made info block, up to its starts.
fn head_words(first: &[u8], second: &[u8], f: Figures) -> [u32; 30]
    requires { (16 ≤ length first.now) × (16 ≤ length second.now) }
    ensures { result ≡ head_words first.now second.now f }
{
    [
        SIGNATURE[0],
        SIGNATURE[1],
        SIGNATURE[2],
        SIGNATURE[3],
        word_at(first, 0),
        word_at(first, 1),
        word_at(first, 2),
        word_at(first, 3),
        word_at(second, 0),
        word_at(second, 1),
        word_at(second, 2),
        word_at(second, 3),
        0,
        2,
        f.size,
        f.sectors,
        f.internal,
        f.blocks,
        f.lanes,
        4096,
        0,
        0,
        low_word(f.dataoff),
        high_word(f.dataoff),
        low_word(f.mapoff),
        high_word(f.mapoff),
        low_word(f.flogoff),
        high_word(f.flogoff),
        low_word(f.copyoff),
        high_word(f.copyoff),
    ]
}

// Stores those words from word i on.
fn put_head(a: &mut [u8], i: usize, head: [u32; 30])
    requires { 4 * (i + 30) ≤ length a.old }
    ensures { a.new ≡ put_words a.old i head }
{
    for (k, word) in head.iter().enumerate() {
        put_word(a, i + k, *word);
    }
}

// Stores a made info block's 1,024 words from word i on.
pub fn put_info(a: &mut [u8], i: usize, first: &[u8], second: &[u8], f: Figures)
    requires i_in_bounds { 4 * (i + 1024) ≤ length a.old }
    requires in_bounds { (16 ≤ length first.now) × (16 ≤ length second.now) }
    ensures { a.new ≡ put_words a.old i (info_words first.now second.now f) }
{
    let head = head_words(first, second, f);
    put_head(a, i, head);
    zero_words(a, i + 30, 992);
    let sums = Sums::new().add_words(a, i, 1022);
    let sum = sums.add(0).add(0).value();
    put_long(a, i + 1022, sum);
}
