// Counts in the work buffer, by which each block is seen to be there once.
#![tactic(auto)]

ghost use Rattle.std.specs.Prelude.{◌≡◌, ℕ, ◌≤◌, ◌<◌, length};
ghost use Rattle.machine.specs.state.Flog.{map_block, free_of, spare_of};
ghost use Rattle.lanes.specs.View.{layout, IsReadable, IsSound};
ghost use Rattle.once.specs.Once.{cleared, bumped, counted, counts_between, blocks_once};

use format::numbers::{BlockNo, LaneNo, SectorNo};
use lanes::ArenaView;

// Counts x once more: 0, 1, 2 and no further.
fn bump(w: &mut [u8], x: usize)
    requires { x < length w.old }
    ensures { w.new ≡ bumped w.old x }
{
    w[x] = if w[x] == 0 { 1 } else { 2 };
}

// Counts the block of each of the first n numbers.
fn count_each<F: Fn(u32) -> BlockNo>(w: &mut [u8], n: u32, block: F)
    requires callable { (i : ℕ) → i < n → F.pre block i }
    requires inside { (i : ℕ) (b : _) → i < n → F.post block i b → b.0 < length w.old }
    ensures { (f : ℕ → ℕ) → ((i : ℕ) (b : _) → i < n → F.post block i b → b.0 ≡ f i) → w.new ≡ counted w.old n f }
{
    for i in 0..n {
        bump(w, block(i).0 as usize);
    }
}

// Whether all counts are from low to high. None ends the loop, so that many are tested at a time.
fn counts_between(counts: &[u8], low: u8, high: u8) -> bool
    ensures { result ≡ counts_between counts.now (length counts.now) low high }
{
    let mut all = true;
    for m in counts {
        all &= (low <= *m) & (*m <= high);
    }
    all
}

// Whether every block is claimed once. The first blocks bytes of the work buffer are 0 afterwards.
pub fn blocks_once(view: ArenaView, w: &mut [u8]) -> bool
    requires { IsSound view × (view.figures.blocks ≤ length w.old) }
    ensures value { result ≡ blocks_once (layout view.entry) view.entry.bytes.now }
    ensures w_after { w.new ≡ cleared view.entry.figures.blocks w.old }
{
    let f = view.figures;
    let free = |l: u32| -> BlockNo
        requires { IsReadable view l }
        ensures { result.0 ≡ free_of (layout view.entry) view.entry.bytes.now l }
    { view.free_block(LaneNo(l)) };
    let mapped = |s: u32| -> BlockNo
        requires { s < view.figures.sectors }
        ensures { result.0 ≡ map_block (layout view.entry) view.entry.bytes.now s }
    { view.map_block(SectorNo(s)) };
    let spare = |l: u32| -> BlockNo
        requires { IsReadable view l }
        ensures { result.0 ≡ spare_of (layout view.entry) view.entry.bytes.now l }
    { view.spare_block(LaneNo(l)) };
    let counts = &mut w[..f.blocks as usize];
    counts.fill(0);
    count_each(counts, f.lanes, free);
    let distinct = counts_between(counts, 0, 1);
    counts.fill(0);
    count_each(counts, f.sectors, mapped);
    count_each(counts, f.lanes, spare);
    let once = counts_between(counts, 1, 1);
    counts.fill(0);
    distinct && once
}
