// One record of a log: the library's call that it runs, on the arena and on the replay's table.
ghost use Rattle.std.specs.Prelude.{◌≡◌, ◌≤◌, length};
ghost use Rattle.layout.specs.Sizes.{max_size};
ghost use Rattle.machine.specs.state.Answer.{number_of};
ghost use Rattle.machine.specs.calls.Writing.{step_of};
ghost use Rattle.runlog.specs.Log.{max_log};
ghost use Rattle.seen.specs.Seen.{Saw, Every, moved};
ghost use Rattle.replaying.specs.Replay.{words_for, step_bytes};
ghost use Rattle.replaying.specs.Ran.{RanGives};
ghost use Rattle.replaying.specs.Gave.{point_at};

use arena::open::open;
use arena::{start_seen, step_seen};
use format::numbers::{LaneNo, SectorNo};
use layout::{Figures, MAX_SIZE, NEAR};
use machine::handle::Handle;
use machine::lane::Lane;
use machine::refusal::Refusal;
use runlog::record::Record;
use seen::Seen;
use table::{fill, keep, look};
use words::put_word;

// The words of the largest sector.
const MAX_WORDS: u32 = 1026;

// The handle that a refused opening leaves: every call on it is refused with 16.
const NO_HANDLE: Handle = Handle {
    length: 0,
    distance: 0,
    figures: Figures {
        size: 0,
        sectors: 0,
        internal: 0,
        blocks: 0,
        lanes: 0,
        dataoff: 0,
        mapoff: 0,
        flogoff: 0,
        copyoff: 0,
    },
};

// Fills a buffer of the largest sector's length with rising words, from the record's index on.
fn fill_words(buffer: &mut [u8], index: u32)
    requires { (index ≤ max_log) × (length buffer.old ≡ max_size) }
    ensures { buffer.new ≡ words_for index buffer.old }
{
    for k in 0..MAX_WORDS {
        put_word(buffer, k as usize, index + k);
    }
}

// The step of a record: it lends a sector of which word k is the record's index plus k.
fn run_step(
    arena: &mut [u8],
    h: Handle,
    seen: Seen,
    lane: LaneNo,
    index: u32,
) -> Result<Lane, Refusal>
    requires { (index ≤ max_log) × Saw h lane.0 0 seen }
    ensures { Every h lane.0 0 seen
        (λ k. moved k lane.0 result arena.new ≡ step_of arena.old k lane.0 (step_bytes h.figures.size index)) }
{
    let mut buffer = [0u8; MAX_SIZE];
    fill_words(&mut buffer, index);
    let size = (h.figures.size as usize).min(MAX_SIZE);
    step_seen(arena, h, seen, lane, &buffer[..size])
}

// Runs a record: a start or a step on its lane, or a cut's opening, which leaves the handle of all zeroes where it is refused.
pub fn run_record(
    arena: &mut [u8],
    work: &mut [u8],
    table: &mut [Lane],
    handle: &mut Handle,
    found: Record,
    index: u32,
) -> Result<(), Refusal>
    requires { index ≤ max_log }
    ensures { RanGives index (point_at arena.old work.old handle.old table.old) found
        (number_of result) (point_at arena.new work.new handle.new table.new) }
{
    match found {
        Record::Start(lane, sector) => {
            let seen = look(&table[..], *handle, lane, sector);
            keep(
                table,
                lane,
                start_seen(&arena[..], *handle, seen, lane, sector),
            )
        }
        Record::Step(lane) => {
            let seen = look(&table[..], *handle, lane, SectorNo(0));
            keep(table, lane, run_step(arena, *handle, seen, lane, index))
        }
        Record::Cut => {
            *handle = NO_HANDLE;
            let opened = open(arena, work, NEAR, table.len())?;
            fill(table, &arena[..], opened.handle);
            *handle = opened.handle;
            Ok(())
        }
    }
}
