// Opening and cut opening, by the length of the table that is lent: the table itself is filled by the handle and the arena that are left.
ghost use Rattle.std.specs.Prelude.{◌≡◌, ◌≤◌, length, IfOk};
ghost use Rattle.layout.specs.Told.{alone};
ghost use Rattle.machine.specs.state.Answer.{number_of};
ghost use Rattle.machine.specs.calls.Opening.{figures_in, open_of, cut_open_of};
ghost use Rattle.lanes.specs.Filled.{LanesFit};
ghost use Rattle.arena.specs.Calls.{ForTable, cut_gave, count_of, mended_count, OpenGives};

use judge::opening::judge;
use layout::{Figures, MAX_LANES, Told, alone};
use machine::handle::Handle;
use machine::refusal::Refusal;
use mend::mend;

// What an accepted opening gives beside the table: the number of pending lanes as found, and the handle.
#[derive(Clone, Copy, Debug, PartialEq, Eq)]
pub struct Opened {
    pub mended: u32,
    pub handle: Handle,
}

// What an accepted cut opening found: the number of pending lanes, and the figures.
#[derive(Clone, Copy)]
struct Mended {
    count: u32,
    figures: Figures,
}

// Judges all as it is told, then makes the first k mending stores, or all if there are fewer.
fn judge_and_mend(
    arena: &mut [u8],
    told: Told,
    work: &mut [u8],
    records: usize,
    k: u32,
) -> Result<Mended, Refusal>
    ensures for_table { ForTable work.old records (λ room. cut_gave (number_of result) (mended_count result) arena.new work.new room.table
        ≡ cut_open_of told arena.old room k) }
    ensures figures_value { IfOk result (λ m. m.figures ≡ figures_in arena.old) }
{
    let figures = judge(&arena[..], told, work, records)?;
    let count = mend(arena, figures, told.distance, k);
    Ok(Mended { count, figures })
}

// A cut opening: told k, it is refused as opening is, and else makes the first k of opening's stores; of the table it asks the length alone.
// It gives the number of pending lanes as found.
pub fn cut_open(
    arena: &mut [u8],
    work: &mut [u8],
    distance: u32,
    records: usize,
    k: u32,
) -> Result<u32, Refusal>
    ensures { ForTable work.old records (λ room. cut_gave (number_of result) (count_of result) arena.new work.new room.table
        ≡ cut_open_of (alone distance) arena.old room k) }
{
    let mended = judge_and_mend(arena, alone(distance), work, records, k)?;
    Ok(mended.count)
}

// Opens an arena in the layout whose halves start so far apart: judges all, mends the pending lanes through the cut opening, and gives the
// handle; the lanes of that handle can be read off the flog.
pub fn open(
    arena: &mut [u8],
    work: &mut [u8],
    distance: u32,
    records: usize,
) -> Result<Opened, Refusal>
    ensures for_table { ForTable work.old records (λ room. OpenGives result arena.new work.new room.table
        (open_of (alone distance) arena.old room)) }
    ensures lanes_fit { IfOk result (λ o. LanesFit o.handle arena.new × (o.handle.figures.lanes ≤ records)) }
{
    let mended = judge_and_mend(arena, alone(distance), work, records, MAX_LANES)?;
    let handle = Handle {
        length: arena.len() as u64,
        distance,
        figures: mended.figures,
    };
    Ok(Opened {
        mended: mended.count,
        handle,
    })
}
