// What an arena's map and flog say, by its figures.
#![tactic(auto)]

ghost use Rattle.std.specs.Prelude.{◌≡◌, ℕ, ◌<◌, length};
ghost use Rattle.layout.specs.Place.{layout_of};
ghost use Rattle.layout.specs.Fit.{Fit};
ghost use Rattle.machine.specs.state.Flog.{map_word, map_block};
ghost use Rattle.lanes.specs.Fit.{MapFit};

use format::flog::{Half, half_at, newer_of_pair};
use format::map::block_of;
use format::numbers::{BlockNo, LaneNo, SectorNo};
use format::sequence::HalfNo;
use layout::{Figures, flog_place, is_padding, lane_place, map_place};
use machine::lane::Lane;
use words::word_at;

// A sector's map word, and below its block: of bytes whose map alone fits, which is less than a view asks.
pub fn map_word(a: &[u8], f: Figures, s: SectorNo) -> u32
    requires { MapFit f (length a.now) × (s.0 < f.sectors) }
    ensures { (d : ℕ) → result ≡ map_word (layout_of d f) a.now s.0 }
{
    word_at(a, map_place(f, s))
}

// The block that a sector's map word stands for.
pub fn map_block(a: &[u8], f: Figures, s: SectorNo) -> BlockNo
    requires { MapFit f (length a.now) × (s.0 < f.sectors) }
    ensures { (d : ℕ) → result.0 ≡ map_block (layout_of d f) a.now s.0 }
{
    block_of(s, map_word(a, f, s))
}

// The bytes of an arena, its figures, which fit them, and how many bytes apart the two halves of a lane start.
#[derive(Clone, Copy)]
pub struct ArenaView<'a> {
    pub bytes: &'a [u8],
    pub figures: Figures,
    pub distance: u32,
    pub ghost fit: { Fit distance figures (length bytes.now) },
}

impl<'a> ArenaView<'a> {
    ghost use Rattle.machine.specs.state.Flog.{newer_half, free_of, spare_of, pending, newer_flog, padding_set};
    ghost use Rattle.machine.specs.calls.Opening.{lane_readable, found_lane};
    ghost use Rattle.format.specs.Sequence.{half_number};
    ghost use Rattle.format.specs.Flog.{half_at};
    ghost use Rattle.layout.specs.Place.{in_flog, at};
    ghost use Rattle.lanes.specs.View.{layout, IsLane, IsReadable};

    // A lane's newer half, if one is.
    pub fn newer_half(&self, l: LaneNo) -> Option<HalfNo>
        requires { IsLane self.now l.0 }
        ensures { half_number result ≡ newer_half (layout self.now) self.now.bytes.now l.0 }
    {
        let first = flog_place(self.figures, self.distance, l, 0, 0);
        newer_of_pair(self.bytes, first, (self.distance / 4) as usize)
    }

    // A half of a lane's flog.
    fn half(&self, l: LaneNo, half: HalfNo) -> Half
        requires { IsLane self.now l.0 }
        ensures { result ≡ half_at self.now.bytes.now (at (layout self.now) (in_flog l.0 (half_number (Some half)) 0)) }
    {
        half_at(
            self.bytes,
            flog_place(self.figures, self.distance, l, half as u32, 0),
        )
    }

    // The newer half of a lane that has one.
    pub fn newer_flog(&self, l: LaneNo) -> Half
        requires lane { IsLane self.now l.0 }
        requires newer { newer_half (layout self.now) self.now.bytes.now l.0 < 2 }
        ensures { result ≡ newer_flog (layout self.now) self.now.bytes.now l.0 }
    {
        self.half(l, self.newer_half(l).unwrap())
    }

    // Rule 6, of one lane: whether it has a newer half, whose numbers are in range.
    pub fn lane_readable(&self, l: LaneNo) -> bool
        requires { IsLane self.now l.0 }
        ensures { result ≡ lane_readable (layout self.now) self.now.bytes.now l.0 }
    {
        let Some(newer) = self.newer_half(l) else {
            return false;
        };
        let h = self.half(l, newer);
        let f = self.figures;
        h.sector.0 < f.sectors && h.old.0 < f.blocks && h.new.0 < f.blocks
    }

    // Rule 18, of one lane: whether some word of its padding is not zero.
    pub fn padding_set(&self, l: LaneNo) -> bool
        requires { IsLane self.now l.0 }
        ensures { result ≡ padding_set (layout self.now) self.now.bytes.now l.0 }
    {
        for k in 0..16 {
            if is_padding(self.distance, k)
                && word_at(self.bytes, lane_place(self.figures, l, k)) != 0
            {
                return true;
            }
        }
        false
    }

    // The block that a sector's map word stands for.
    pub fn map_block(&self, s: SectorNo) -> BlockNo
        requires { s.0 < self.now.figures.sectors }
        ensures { result.0 ≡ map_block (layout self.now) self.now.bytes.now s.0 }
    {
        map_block(self.bytes, self.figures, s)
    }

    // Whether a lane is pending: the block of map[sector] is old.
    pub fn is_pending(&self, l: LaneNo) -> bool
        requires { IsReadable self.now l.0 }
        ensures { result ≡ pending (layout self.now) self.now.bytes.now l.0 }
    {
        let h = self.newer_flog(l);
        self.map_block(h.sector) == h.old
    }

    // A lane's free block.
    pub fn free_block(&self, l: LaneNo) -> BlockNo
        requires { IsReadable self.now l.0 }
        ensures { result.0 ≡ free_of (layout self.now) self.now.bytes.now l.0 }
    {
        self.newer_flog(l).old
    }

    // The block that neither the map as found nor another lane has: new of a pending lane, else old.
    pub fn spare_block(&self, l: LaneNo) -> BlockNo
        requires { IsReadable self.now l.0 }
        ensures { result.0 ≡ spare_of (layout self.now) self.now.bytes.now l.0 }
    {
        let h = self.newer_flog(l);
        if self.is_pending(l) { h.new } else { h.old }
    }

    // A lane's record as opening leaves it.
    pub fn found_lane(&self, l: LaneNo) -> Lane
        requires { IsReadable self.now l.0 }
        ensures { result ≡ found_lane (layout self.now) self.now.bytes.now l.0 }
    {
        let newer = self.newer_half(l).unwrap();
        let h = self.half(l, newer);
        Lane::idle(h.old, 1 - newer as u32, h.sequence.next())
    }
}
