// The table of lane records that a caller lends. Only the functions here and the calls that are given one touch it: they read records, call
// a function by value, and store one record.
#![tactic(auto)]

ghost use Rattle.std.specs.Prelude.{◌≡◌, ◌≤◌, length, set};
ghost use Rattle.machine.specs.state.Handle.{lane_at};
ghost use Rattle.lanes.specs.Filled.{LanesFit, filled_by};
ghost use Rattle.machine.specs.state.Answer.{number_of};
ghost use Rattle.seen.specs.Seen.{kept, seen_of};

use format::numbers::{LaneNo, SectorNo};
use lanes::ArenaView;
use machine::handle::Handle;
use machine::lane::Lane;
use machine::refusal::Refusal;
use seen::{Seen, also_flies, judged, out_of_range, seen_of};

// A record of the table; past its end, the record of all zeroes.
pub fn lane_at(table: &[Lane], i: usize) -> Lane
    ensures { result ≡ lane_at table.now i }
{
    table.get(i).copied().unwrap_or(Lane::none())
}

// Stores a record; past the end of the table, nothing.
pub fn put_lane(table: &mut [Lane], i: usize, r: Lane)
    ensures { table.new ≡ set table.old i r }
{
    if i < table.len() {
        table[i] = r;
    }
}

// Stores the record that a call gave in its lane's place; a refusal stores nothing, and is handed on.
pub fn keep(table: &mut [Lane], lane: LaneNo, given: Result<Lane, Refusal>) -> Result<(), Refusal>
    ensures answer { number_of result ≡ number_of given }
    ensures table_after { table.new ≡ kept table.old lane.0 given }
{
    put_lane(table, lane.0 as usize, given?);
    Ok(())
}

// What a call sees of the table: it is judged record by record, up to the first that is out of range; then those before it are asked for the
// sector. Each has a loop of its own: in one, the compiler makes a jump of every test, which is slow at some places in memory.
pub fn look(table: &[Lane], h: Handle, lane: LaneNo, sector: SectorNo) -> Seen
    ensures { result ≡ seen_of h table.now lane.0 sector.0 }
{
    let n = table.len();
    let end = judged(h, n);
    let own = lane_at(table, lane.0 as usize);
    let mut done = 0;
    for i in 0..end {
        if out_of_range(h, table[i]) {
            break;
        }
        done += 1;
    }
    let mut flying = false;
    for k in 0..done {
        flying = also_flies(flying, table[k], sector);
    }
    seen_of(n, end, done, flying, own)
}

// Fills the lanes' records of an opened arena, each read off the flog; those past the lanes are left alone.
pub fn fill(table: &mut [Lane], arena: &[u8], h: Handle)
    requires { LanesFit h arena.now × (h.figures.lanes ≤ length table.old) }
    ensures { table.new ≡ filled_by h arena.now table.old }
{
    for l in 0..h.figures.lanes {
        let view = ArenaView {
            bytes: arena,
            figures: h.figures,
            distance: h.distance,
        };
        table[l as usize] = view.found_lane(LaneNo(l));
    }
}
