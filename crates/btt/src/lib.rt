// The library for hosts: each call of an arena as a function that C can call. A handle is 64 bytes that the host keeps, and the lanes' records
// are in a table that it lends; a call decodes the one, sees what it needs of the other, and stores the one record that it changed.
#![tactic(auto)]

ghost use Rattle.std.specs.Prelude.{◌≡◌};
ghost use Rattle.making.specs.Gave.{wanted_of};
ghost use Rattle.machine.specs.calls.Making.{make_of};
ghost use Rattle.btt.specs.Calls.{span, room, btt_info_block_of, btt_open_of, btt_cut_open_of, btt_read_of, btt_start_of, btt_step_of, btt_write_of};
ghost use Rattle.btt.specs.Calls.{btt_lane_of, btt_next_store_of};
ghost use Rattle.btt.specs.Replay.{btt_replay_of};
ghost use Rattle.btt.specs.Gave as gave;

use arena::open::open;
use arena::{make, read_seen, start_seen, step_seen, write_seen};
use format::numbers::{LaneNo, SectorNo};
use handlebytes::handle_in;
use inspect::{info_span, show_lane, show_next};
use machine::lane::Lane;
use machine::refusal::{Refusal, number_of};
use opening::{cut_into, fill_opened, give};
use replaying::replay;
use table::{keep, look};

pub mod claims;
mod inspect;
mod opening;

// Makes an arena of E sectors of S bytes with so many lanes, in a slice of just the length that this works out.
#[unsafe(no_mangle)]
pub extern "C" fn btt_make(
    arena: &mut [u8],
    size: u32,
    sectors: u32,
    lanes: u32,
    first: &[u8],
    second: &[u8],
) -> u32
    ensures { gave.made result arena.new
        ≡ make_of (wanted_of size sectors lanes first.now second.now) arena.old }
{
    number_of(make(arena, size, sectors, lanes, first, second))
}

// The place of the info block that counts, in bytes: its offset and its length, 0 and 0 where none does.
#[unsafe(no_mangle)]
pub extern "C" fn btt_info_block(arena: &[u8], offset: &mut u64, length: &mut u64)
    ensures { span offset.new length.new ≡ btt_info_block_of arena.now }
{
    let place = info_span(arena);
    *offset = place.offset;
    *length = place.length;
}

// Opens an arena in a layout: the handle's bytes, all zeroes on a refusal, how many lanes were pending, and the lanes' records in the table,
// which a refusal leaves.
#[unsafe(no_mangle)]
pub extern "C" fn btt_open(
    arena: &mut [u8],
    work: &mut [u8],
    layout: u32,
    table: &mut [Lane],
    handle: &mut [u8; 64],
    mended: &mut u32,
) -> u32
    ensures { gave.opened result mended.new arena.new table.new handle.new work.new
        ≡ btt_open_of layout arena.old (room work.old table.old) }
{
    let opened = open(arena, work, layout, table.len());
    fill_opened(table, &arena[..], opened);
    give(handle, mended, opened)
}

// A cut opening in a layout: told k, it is refused as opening is, and else makes the first k of opening's stores; it gives no handle and
// leaves the table alone.
#[unsafe(no_mangle)]
pub extern "C" fn btt_cut_open(
    arena: &mut [u8],
    work: &mut [u8],
    layout: u32,
    table: &[Lane],
    k: u32,
    mended: &mut u32,
) -> u32
    ensures { gave.cut result mended.new arena.new work.new table.now
        ≡ btt_cut_open_of layout arena.old (room work.old table.now) k }
{
    cut_into(arena, work, layout, table.len(), k, mended)
}

// Reads a sector into a buffer of a sector's length.
#[unsafe(no_mangle)]
pub extern "C" fn btt_read(
    arena: &[u8],
    handle: &[u8; 64],
    table: &[Lane],
    sector: u32,
    buffer: &mut [u8],
) -> u32
    ensures { gave.read result buffer.new
        ≡ btt_read_of arena.now handle.now table.now sector buffer.old }
{
    let h = handle_in(handle);
    let seen = look(table, h, LaneNo(0), SectorNo(0));
    number_of(read_seen(arena, h, seen, SectorNo(sector), buffer))
}

// Starts a write to a sector on an idle lane; nothing is stored in the arena.
#[unsafe(no_mangle)]
pub extern "C" fn btt_start(
    arena: &[u8],
    handle: &[u8; 64],
    table: &mut [Lane],
    lane: u32,
    sector: u32,
) -> u32
    ensures { gave.outcome result arena.now table.new
        ≡ btt_start_of arena.now handle.now table.old lane sector }
{
    let h = handle_in(handle);
    let (lane, sector) = (LaneNo(lane), SectorNo(sector));
    let seen = look(&table[..], h, lane, sector);
    let begun = start_seen(arena, h, seen, lane, sector);
    number_of(keep(table, lane, begun))
}

// Makes the next store of a lane's write.
#[unsafe(no_mangle)]
pub extern "C" fn btt_step(
    arena: &mut [u8],
    handle: &[u8; 64],
    table: &mut [Lane],
    lane: u32,
    buffer: &[u8],
) -> u32
    ensures { gave.outcome result arena.new table.new
        ≡ btt_step_of arena.old handle.now table.old lane buffer.now }
{
    let h = handle_in(handle);
    let lane = LaneNo(lane);
    let seen = look(&table[..], h, lane, SectorNo(0));
    let stepped = step_seen(arena, h, seen, lane, buffer);
    number_of(keep(table, lane, stepped))
}

// Makes a whole write: a start and all its steps in one call, refused before any store.
#[unsafe(no_mangle)]
pub extern "C" fn btt_write(
    arena: &mut [u8],
    handle: &[u8; 64],
    table: &mut [Lane],
    lane: u32,
    sector: u32,
    buffer: &[u8],
) -> u32
    ensures { gave.outcome result arena.new table.new
        ≡ btt_write_of arena.old handle.now table.old lane sector buffer.now }
{
    let h = handle_in(handle);
    let (lane, sector) = (LaneNo(lane), SectorNo(sector));
    let seen = look(&table[..], h, lane, sector);
    let written = write_seen(arena, h, seen, lane, sector, buffer);
    number_of(keep(table, lane, written))
}

// A lane's record, for inspection.
#[unsafe(no_mangle)]
pub extern "C" fn btt_lane_record(
    arena: &[u8],
    handle: &[u8; 64],
    table: &[Lane],
    lane: u32,
    out: &mut [u8; 28],
) -> u32
    ensures { gave.lane result out.new
        ≡ btt_lane_of arena.now handle.now table.now lane out.old }
{
    let h = handle_in(handle);
    let lane = LaneNo(lane);
    let seen = look(table, h, lane, SectorNo(0));
    number_of(show_lane(arena, h, seen, lane, out))
}

// The byte offset of the one word that a lane's next step stores, so that a host can flush it.
#[unsafe(no_mangle)]
pub extern "C" fn btt_next_store(
    arena: &[u8],
    handle: &[u8; 64],
    table: &[Lane],
    lane: u32,
    offset: &mut u64,
) -> u32
    ensures { gave.next result offset.new
        ≡ btt_next_store_of arena.now handle.now table.now lane offset.old }
{
    let h = handle_in(handle);
    let lane = LaneNo(lane);
    let seen = look(table, h, lane, SectorNo(0));
    number_of(show_next(arena, h, seen, lane, offset))
}

// Replays a run log on an arena: each record's answer in a byte, how many records ran, and where the log is refused, 0 if it is not.
#[unsafe(no_mangle)]
pub extern "C" fn btt_replay(
    arena: &mut [u8],
    work: &mut [u8],
    log: &[u8],
    answers: &mut [u8],
    records: &mut u64,
    stopped: &mut u64,
) -> u32
    ensures { gave.replayed result records.new stopped.new arena.new work.new answers.new
        ≡ btt_replay_of arena.old work.old log.now answers.old }
{
    match replay(arena, work, log, answers) {
        Ok(replayed) => {
            *records = u64::from(replayed.records);
            *stopped = u64::from(replayed.stopped.unwrap_or(0));
            if replayed.stopped.is_some() {
                Refusal::BadRecord.number()
            } else {
                0
            }
        }
        Err(refusal) => {
            *records = 0;
            *stopped = 0;
            refusal.number()
        }
    }
}
