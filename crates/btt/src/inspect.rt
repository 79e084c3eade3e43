// What a host looks up: the place of the info block that counts, a lane's record, and where its next step stores.
ghost use Rattle.std.specs.Prelude.{◌≡◌};
ghost use Rattle.machine.specs.state.Answer.{number_of};
ghost use Rattle.seen.specs.Seen.{Saw, Every};
ghost use Rattle.btt.specs.Calls.{btt_info_block_of, lane_number, next_number, lane_shown, next_shown};
ghost use Rattle.btt.specs.Gave as gave;

use format::numbers::LaneNo;
use handlebytes::put_record;
use infoblock::Part;
use judge::info::info_part;
use machine::handle::Handle;
use machine::refusal::Refusal;
use seen::{Seen, judge_table};
use stores::WriteInFlight;

// A part of an arena, in bytes.
#[derive(Clone, Copy)]
pub struct Span {
    pub offset: u64,
    pub length: u64,
}

// The place of the info block that counts; 0 and 0, which C gets, where none does.
pub fn info_span(arena: &[u8]) -> Span
    ensures { result ≡ btt_info_block_of arena.now }
{
    let n = arena.len();
    match info_part(arena) {
        Some(Part::Main) => Span {
            offset: 0,
            length: 4096,
        },
        Some(Part::Copy) => Span {
            offset: (n - 4096) as u64,
            length: 4096,
        },
        None => Span {
            offset: 0,
            length: 0,
        },
    }
}

// Judges a look at a lane's record: the first rule of its order that applies.
fn judge_lane(arena: &[u8], h: Handle, seen: Seen, lane: LaneNo) -> Result<(), Refusal>
    ensures { Every h lane.0 0 seen (λ k. number_of result ≡ lane_number arena.now k lane.0) }
{
    judge_table(arena.len(), h, seen)?;
    if h.figures.lanes <= lane.0 {
        return Err(Refusal::NoSuchLane);
    }
    Ok(())
}

// Judges a look at a lane's next store: the first rule of its order that applies.
fn judge_next(arena: &[u8], h: Handle, seen: Seen, lane: LaneNo) -> Result<(), Refusal>
    ensures { Every h lane.0 0 seen (λ k. number_of result ≡ next_number arena.now k lane.0) }
{
    judge_lane(arena, h, seen, lane)?;
    if !seen.own.is_busy() {
        return Err(Refusal::LaneIdle);
    }
    Ok(())
}

// Puts a lane's record into 28 bytes; a refusal leaves them.
pub fn show_lane(
    arena: &[u8],
    h: Handle,
    seen: Seen,
    lane: LaneNo,
    out: &mut [u8; 28],
) -> Result<(), Refusal>
    ensures { Every h lane.0 0 seen
        (λ k. gave.lane (number_of result) out.new ≡ lane_shown arena.now k lane.0 out.old) }
{
    judge_lane(arena, h, seen, lane)?;
    put_record(out, seen.own);
    Ok(())
}

// The byte offset that a lane's next step stores to; a refusal leaves it.
pub fn show_next(
    arena: &[u8],
    h: Handle,
    seen: Seen,
    lane: LaneNo,
    offset: &mut u64,
) -> Result<(), Refusal>
    requires { Saw h lane.0 0 seen }
    ensures { Every h lane.0 0 seen
        (λ k. gave.next (number_of result) offset.new ≡ next_shown arena.now k lane.0 offset.old) }
{
    judge_next(arena, h, seen, lane)?;
    let own = seen.own;
    let write = WriteInFlight {
        handle: h,
        lane,
        own,
    };
    let place = write.place(own.made);
    *offset = 4 * place as u64;
    Ok(())
}
