// Sectors, blocks and lanes as types of their own, so that none stands for another.
ghost use Rattle.std.specs.Prelude.{◌≡◌};

// A sector as a host numbers it.
#[repr(C)]
#[derive(Clone, Copy, Debug, PartialEq, Eq, PartialOrd, Ord)]
pub struct SectorNo(pub u32);

// A block of the data part.
#[repr(C)]
#[derive(Clone, Copy, Debug, PartialEq, Eq, PartialOrd, Ord)]
pub struct BlockNo(pub u32);

// A lane.
#[derive(Clone, Copy, Debug, PartialEq, Eq, PartialOrd, Ord)]
pub struct LaneNo(pub u32);

impl SectorNo {
    // The block of the sector's own number, which a map word with flags 00 stands for.
    pub fn own_block(self) -> BlockNo
        ensures { result.0 ≡ self.0 }
    {
        BlockNo(self.0)
    }
}
