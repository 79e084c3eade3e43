// What a call sees, by value, of the table of lane records that is lent with a handle.
#![tactic(auto)]

ghost use Rattle.std.specs.Prelude.{◌≡◌, not, ◌||◌, List, [], ℕ, ◌≤◌, length};
ghost use Rattle.machine.specs.Rules.{answer};
ghost use Rattle.machine.specs.state.Answer.{number_of};
ghost use Rattle.machine.specs.calls.Order.{number, table_rules};
ghost use Rattle.machine.specs.calls.Judging.{tests};
ghost use Rattle.seen.specs.Seen.{flies, allowed, reach, seen_after, Every};

use format::numbers::SectorNo;
use machine::handle::{Handle, handle_allowed, lane_allowed};
use machine::lane::Lane;
use machine::refusal::Refusal;

// What a call sees: the table's length, whether the lanes' records are in range, whether one has the sector in flight, and the lane's own.
// The two flags answer two rules, each asked by itself, so that an Option of the second would be taken apart twice. Handle, lane and sector
// stay a call's own parameters, with `Saw` in its clauses: that fact holds a table and is no proposition, so that no ghost field can have it.
#[derive(Clone, Copy, Debug, PartialEq, Eq)]
pub struct Seen {
    pub length: usize,
    pub sound: bool,
    pub flying: bool,
    pub own: Lane,
}

// How many records are judged: the lanes', or none where the table is shorter.
pub fn judged(h: Handle, length: usize) -> usize
    ensures { (result ≡ reach h length) × (result ≤ length) }
{
    let n = h.figures.lanes as usize;
    if n <= length { n } else { 0 }
}

// Whether a record has a sector in flight.
fn in_flight(r: Lane, sector: SectorNo) -> bool
    ensures { result ≡ flies r sector.0 }
{
    r.is_busy() && r.sector == sector
}

// Whether a record is out of range.
pub fn out_of_range(h: Handle, r: Lane) -> bool
    ensures { result ≡ not (allowed h r) }
{
    !lane_allowed(h.figures, r)
}

// Whether a sector is in flight in a record, or was in one before.
pub fn also_flies(before: bool, r: Lane, sector: SectorNo) -> bool
    ensures { result ≡ (before || flies r sector.0) }
{
    before | in_flight(r, sector)
}

// What is seen of a table where judging stopped after so many records of those to be judged.
pub fn seen_of(length: usize, end: usize, done: usize, flying: bool, r: Lane) -> Seen
    ensures { result ≡ seen_after length end done flying r }
{
    let sound = done == end;
    Seen {
        length,
        sound,
        flying: sound & flying,
        own: r,
    }
}

// The first rules of every call, on an arena of that length: 16 of the handle, 21, and 16 of the lanes' records.
pub fn judge_table(total: usize, h: Handle, seen: Seen) -> Result<(), Refusal>
    ensures { (a : List ℕ) (l s : ℕ) → length a ≡ total
        → Every h l s seen (λ k. number_of result ≡ answer number (tests a k) (table_rules [])) }
{
    if !handle_allowed(h, total) {
        return Err(Refusal::BadHandle);
    }
    if seen.length < h.figures.lanes as usize {
        return Err(Refusal::ShortTable);
    }
    if !seen.sound {
        return Err(Refusal::BadHandle);
    }
    Ok(())
}
