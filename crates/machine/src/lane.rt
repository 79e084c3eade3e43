// A lane's record: its free block, its next half and sequence, and the write in flight, if any. A host may put any numbers into one, so that
// C sees numbers where an enum or an Option would stand.
ghost use Rattle.std.specs.Prelude.{◌≡◌, ◌+◌, ◌≤◌, ◌<◌};
ghost use Rattle.layout.specs.Sizes.{max_stores};
ghost use Rattle.machine.specs.state.Lane.{no_lane, idle_lane, is_busy, started_lane, stored_lane, finished_lane};

use format::numbers::{BlockNo, SectorNo};
use format::sequence::Sequence;

#[repr(C)]
#[derive(Clone, Copy, Debug, PartialEq, Eq)]
pub struct Lane {
    // 1 where a write is in flight, else 0; any other number is out of range.
    pub busy: u32,
    // The free block; of a write in flight, its new block.
    pub block: BlockNo,
    // The half of the flog pair that is written next: 0 or 1.
    pub half: u32,
    // The sequence number that is written next.
    pub sequence: Sequence,
    // The sector, its old block and the stores made of a write in flight.
    pub sector: SectorNo,
    pub old: BlockNo,
    pub made: u32,
}

impl Lane {
    // The record of all zeroes.
    pub fn none() -> Self
        ensures { result ≡ no_lane }
    {
        Lane::idle(BlockNo(0), 0, Sequence::UNSET)
    }

    // An idle lane.
    pub fn idle(block: BlockNo, half: u32, sequence: Sequence) -> Self
        ensures { result ≡ idle_lane block.0 half sequence.0 }
    {
        Lane {
            busy: 0,
            block,
            half,
            sequence,
            sector: SectorNo(0),
            old: BlockNo(0),
            made: 0,
        }
    }

    // Whether the lane is not idle.
    pub fn is_busy(self) -> bool
        ensures { result ≡ is_busy self }
    {
        self.busy != 0
    }

    // The record with a write to a sector begun.
    pub fn start(self, sector: SectorNo, old: BlockNo) -> Self
        ensures { result ≡ started_lane self sector.0 old.0 }
    {
        Lane {
            busy: 1,
            sector,
            old,
            made: 0, // No store is made yet.
            ..self
        }
    }

    // The record after one store that is not the last.
    pub fn stored(self) -> Self
        requires { self.made < max_stores }
        ensures { result ≡ stored_lane self }
    {
        Lane {
            made: self.made + 1,
            ..self
        }
    }

    // The record after the last store: idle, old is free, the other half and the successor come next.
    pub fn finished(self) -> Self
        requires { self.half ≤ 1 }
        ensures { result ≡ finished_lane self }
    {
        Lane::idle(self.old, 1 - self.half, self.sequence.next())
    }
}
