// Starting a write, one step of it, and a whole write, by what was seen of the table: each gives the one record that it changes, or is refused.
#![tactic(auto)]

ghost use Rattle.std.specs.Prelude.{◌≡◌, ℕ, ◌+◌, ◌/◌, ◌≤◌, ◌<◌, length};
ghost use Rattle.layout.specs.Sizes.{max_size};
ghost use Rattle.layout.specs.Place.{layout_of};
ghost use Rattle.layout.specs.Fit.{Fit};
ghost use Rattle.machine.specs.state.Answer.{number_of};
ghost use Rattle.machine.specs.state.Flog.{map_block};
ghost use Rattle.machine.specs.state.Lane.{started_lane};
ghost use Rattle.machine.specs.state.Stores.{stored};
ghost use Rattle.machine.specs.calls.Writing.{lane_stored, plan_of, start_of, step_number, step_of, store_at, write_of};
ghost use Rattle.stores.specs.Record.{RecordFit};
ghost use Rattle.seen.specs.Seen.{Saw, Every, moved};
ghost use Rattle.writing.specs.Gave.{WriteGives};

use format::map::judge_word;
use format::numbers::{LaneNo, SectorNo};
use lanes::{map_block, map_word};
use layout::Figures;
use machine::handle::Handle;
use machine::lane::Lane;
use machine::refusal::Refusal;
use seen::{Seen, judge_table};
use stores::WriteInFlight;

// Judges a write whose buffer fits, or not: the first rule of its order that applies.
fn judge_write(
    arena: &[u8],
    h: Handle,
    seen: Seen,
    lane: LaneNo,
    sector: SectorNo,
    fits: bool,
) -> Result<(), Refusal>
    requires { Saw h lane.0 sector.0 seen }
    ensures { Every h lane.0 sector.0 seen
        (λ k. WriteGives arena.now k lane.0 sector.0 fits (number_of result)) }
{
    judge_table(arena.len(), h, seen)?;
    let f = h.figures;
    if f.lanes <= lane.0 {
        return Err(Refusal::NoSuchLane);
    }
    if seen.own.is_busy() {
        return Err(Refusal::LaneBusy);
    }
    if f.sectors <= sector.0 {
        return Err(Refusal::NoSuchSector);
    }
    if !fits {
        return Err(Refusal::WrongBuffer);
    }
    if seen.flying {
        return Err(Refusal::SectorBusy);
    }
    judge_word(f.blocks, map_word(arena, f, sector))?;
    Ok(())
}

// A lane's record with a write to a sector begun.
fn begun(arena: &[u8], h: Handle, own: Lane, sector: SectorNo) -> Lane
    requires { Fit h.distance h.figures (length arena.now) × (sector.0 < h.figures.sectors) }
    ensures { result ≡ started_lane own sector.0 (map_block (layout_of h.distance h.figures) arena.now sector.0) }
{
    own.start(sector, map_block(arena, h.figures, sector))
}

// Starts a write to a sector on an idle lane: the lane's record with the write begun; nothing is stored in the arena. It is judged as a write
// whose buffer fits.
pub fn start_seen(
    arena: &[u8],
    h: Handle,
    seen: Seen,
    lane: LaneNo,
    sector: SectorNo,
) -> Result<Lane, Refusal>
    requires { Saw h lane.0 sector.0 seen }
    ensures { Every h lane.0 sector.0 seen
        (λ k. moved k lane.0 result arena.now ≡ start_of arena.now k lane.0 sector.0) }
{
    judge_write(arena, h, seen, lane, sector, true)?;
    Ok(begun(arena, h, seen.own, sector))
}

// The record after one more store.
fn after_store(f: Figures, r: Lane) -> Lane
    requires { (r.half < 2) × (r.made < f.size / 4 + 5) × (f.size ≤ max_size) }
    ensures { (d : ℕ) → result ≡ lane_stored (layout_of d f) r }
{
    if r.made + 1 == f.size / 4 + 5 {
        r.finished()
    } else {
        r.stored()
    }
}

// Judges a step: the first rule of its order that applies.
fn judge_step(
    arena: &[u8],
    h: Handle,
    seen: Seen,
    lane: LaneNo,
    buffer: &[u8],
) -> Result<(), Refusal>
    requires { Saw h lane.0 0 seen }
    ensures { Every h lane.0 0 seen (λ k. number_of result ≡ step_number arena.now k lane.0 buffer.now) }
{
    judge_table(arena.len(), h, seen)?;
    if h.figures.lanes <= lane.0 {
        return Err(Refusal::NoSuchLane);
    }
    if !seen.own.is_busy() {
        return Err(Refusal::LaneIdle);
    }
    if buffer.len() != h.figures.size as usize {
        return Err(Refusal::WrongBuffer);
    }
    Ok(())
}

// Makes the next store of a lane's write: the lane's record after it. It is placed in each of its two callers, so that what is seen stays in registers.
#[inline(always)]
pub fn step_seen(
    arena: &mut [u8],
    h: Handle,
    seen: Seen,
    lane: LaneNo,
    buffer: &[u8],
) -> Result<Lane, Refusal>
    requires { Saw h lane.0 0 seen }
    ensures { Every h lane.0 0 seen
        (λ k. moved k lane.0 result arena.new ≡ step_of arena.old k lane.0 buffer.now) }
{
    judge_step(&arena[..], h, seen, lane, buffer)?;
    let own = seen.own;
    let write = WriteInFlight {
        handle: h,
        lane,
        own,
    };
    write.put(arena, buffer, own.made);
    Ok(after_store(h.figures, own))
}

// Makes a whole write: start and all steps in one call, refused before any store; the lane's record after it.
pub fn write_seen(
    arena: &mut [u8],
    h: Handle,
    seen: Seen,
    lane: LaneNo,
    sector: SectorNo,
    buffer: &[u8],
) -> Result<Lane, Refusal>
    requires { Saw h lane.0 sector.0 seen }
    ensures { Every h lane.0 sector.0 seen
        (λ k. moved k lane.0 result arena.new ≡ write_of arena.old k lane.0 sector.0 buffer.now) }
{
    let fits = buffer.len() == h.figures.size as usize;
    judge_write(&arena[..], h, seen, lane, sector, fits)?;
    let own = begun(&arena[..], h, seen.own, sector);
    let write = WriteInFlight {
        handle: h,
        lane,
        own,
    };
    write.put_all(arena, buffer);
    Ok(own.finished())
}
