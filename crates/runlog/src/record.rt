// The records of a run log: which one stands at an offset, and where it ends.
ghost use Rattle.std.specs.Prelude.{◌≡◌, ◌+◌, ◌≤◌, length};
ghost use Rattle.words.specs.Bytes.{byte_word};
ghost use Rattle.runlog.specs.Record.{byte_half, length_of, record_at, taken_at};

use format::numbers::{LaneNo, SectorNo};

// The longest log that is replayed.
pub const MAX_LOG: usize = 8192;

// What a record says.
#[derive(Clone, Copy, Debug, PartialEq, Eq)]
pub enum Record {
    // Kind 1: a write is started on a lane, to a sector.
    Start(LaneNo, SectorNo),
    // Kind 2: one step on a lane.
    Step(LaneNo),
    // Kind 3: a cut, and a new opening.
    Cut,
}

impl Record {
    // Its length in bytes.
    fn length(self) -> usize
        ensures { result ≡ length_of self }
    {
        match self {
            Record::Start(_, _) => 10,
            Record::Step(_) => 6,
            Record::Cut => 4,
        }
    }
}

// A record, and the offset after it.
#[derive(Clone, Copy, Debug, PartialEq, Eq)]
pub struct Taken {
    pub found: Record,
    pub after: usize,
}

// The 16-bit number at an offset.
fn half_at(log: &[u8], at: usize) -> u16
    requires { at + 2 ≤ length log.now }
    ensures { result ≡ byte_half log.now at }
{
    u16::from_le_bytes([log[at], log[at + 1]])
}

// The 32-bit number at an offset.
fn word_from(log: &[u8], at: usize) -> u32
    requires { at + 4 ≤ length log.now }
    ensures { result ≡ byte_word log.now at }
{
    u32::from_le_bytes([log[at], log[at + 1], log[at + 2], log[at + 3]])
}

// The record at an offset; none stands there if it is short, has another length than its kind, or an unknown kind.
#[tactic(auto, unfolding(crate::specs::Record::record_at))]
pub fn record_at(log: &[u8], at: usize) -> Option<Record>
    ensures { result ≡ record_at log.now at }
{
    let left = log.len().checked_sub(at)?;
    if left < 4 {
        return None;
    }
    let length = half_at(log, at);
    let kind = half_at(log, at + 2);
    if left < usize::from(length) {
        return None;
    }
    match (kind, length) {
        (1, 10) => {
            let lane = LaneNo(u32::from(half_at(log, at + 4)));
            Some(Record::Start(lane, SectorNo(word_from(log, at + 6))))
        }
        (2, 6) => Some(Record::Step(LaneNo(u32::from(half_at(log, at + 4))))),
        (3, 4) => Some(Record::Cut),
        _ => None,
    }
}

// The record at an offset, and the offset after it.
#[tactic(auto, using(crate::proofs::Laws::record_in))]
pub fn taken_at(log: &[u8], at: usize) -> Option<Taken>
    ensures { result ≡ taken_at log.now at }
{
    let found = record_at(log, at)?;
    Some(Taken {
        found,
        after: at + found.length(),
    })
}
