// Why a call is refused.
ghost use Rattle.std.specs.Prelude.{◌≡◌};
ghost use Rattle.machine.specs.state.Answer.{number_of, refusal_number, refusal_of};

use format::map::WordFault;

// Each refusal has its number for hosts, to whom 0 is no refusal; 18 is of a sloppy arena, 20 of the run log and 21 of a short table.
#[derive(Clone, Copy, Debug, PartialEq, Eq)]
pub enum Refusal {
    // The length is not allowed, or, in making, not the figure worked out.
    WrongLength = 1,
    // Neither info block is sound.
    NoInfoBlock = 2,
    // A figure of the info block is forbidden.
    ForbiddenFigure = 3,
    // Flags are not 0.
    FlagsSet = 4,
    // The work buffer is shorter than the number of blocks.
    ShortWorkBuffer = 5,
    // A lane has no newer half, or one out of range.
    LostLane = 6,
    // A map word names a block past the last.
    BadMapWord = 7,
    // Mapped and free blocks are not every block once.
    NotValid = 8,
    // No such sector.
    NoSuchSector = 9,
    // The sector buffer is not a sector long, or an identifier not 16 bytes.
    WrongBuffer = 10,
    // No such lane.
    NoSuchLane = 11,
    // The lane has a write in flight.
    LaneBusy = 12,
    // Another lane has that sector in flight.
    SectorBusy = 13,
    // The lane has no write in flight.
    LaneIdle = 14,
    // The sector read is bad.
    BadSector = 15,
    // The handle breaks a figure or does not match the slice, a lane's record is out of range, or a layout is neither 16 nor 32.
    BadHandle = 16,
    // A map word with flags 00 or the padding of a lane is not zero.
    Sloppy = 18,
    // A record of a run log is short, has another length than its kind or an unknown kind, or the log is too long.
    BadRecord = 20,
    // The table of lane records is shorter than the lanes.
    ShortTable = 21,
}

impl Refusal {
    // The refusal's number.
    pub fn number(self) -> u32
        ensures { result ≡ refusal_number self }
    {
        self as u32
    }
}

impl From<WordFault> for Refusal {
    ghost from_gives = { λ fault r. r ≡ refusal_of fault };

    fn from(fault: WordFault) -> Self {
        match fault {
            WordFault::PastLast => Refusal::BadMapWord,
            WordFault::Sloppy => Refusal::Sloppy,
        }
    }
}

// The number that a host gets of a call: that of the refusal, and 0 where there is none.
pub fn number_of(answer: Result<(), Refusal>) -> u32
    ensures { result ≡ number_of answer }
{
    match answer {
        Ok(()) => 0,
        Err(refusal) => refusal.number(),
    }
}
