// What an opening gives a host: the table's records, the bytes of its handle, and a count.
ghost use Rattle.std.specs.Prelude.{◌≡◌, ◌≤◌, IfOk, length};
ghost use Rattle.layout.specs.Told.{alone};
ghost use Rattle.machine.specs.state.Answer.{number_of};
ghost use Rattle.machine.specs.calls.Opening.{cut_open_of};
ghost use Rattle.lanes.specs.Filled.{LanesFit};
ghost use Rattle.arena.specs.Calls.{ForTable, opened_count, opened_handle, opened_table};
ghost use Rattle.btt.specs.Calls.{given_bytes};
ghost use Rattle.btt.specs.Gave as gave;

use arena::open::{Opened, cut_open};
use handlebytes::put_handle;
use machine::lane::Lane;
use machine::refusal::Refusal;
use table::fill;

// Fills the table by the handle that an opening gave; a refusal leaves it.
pub fn fill_opened(table: &mut [Lane], arena: &[u8], opened: Result<Opened, Refusal>)
    requires { IfOk opened (λ o. LanesFit o.handle arena.now × (o.handle.figures.lanes ≤ length table.old)) }
    ensures { table.new ≡ opened_table opened arena.now table.old }
{
    if let Ok(opened) = opened {
        fill(table, arena, opened.handle);
    }
}

// Stores the handle's bytes, all zeroes on a refusal, and the count, and gives the number.
pub fn give(handle: &mut [u8; 64], mended: &mut u32, opened: Result<Opened, Refusal>) -> u32
    ensures value { result ≡ number_of opened }
    ensures mended_after { mended.new ≡ opened_count opened }
    ensures handle_after { handle.new ≡ given_bytes (number_of opened) (opened_handle opened) }
{
    *handle = [0u8; 64];
    match opened {
        Ok(opened) => {
            *mended = opened.mended;
            put_handle(handle, opened.handle);
            0
        }
        Err(refusal) => {
            *mended = 0;
            refusal.number()
        }
    }
}

// A cut opening by the length of the table: stores the count, 0 on a refusal, and gives the number.
pub fn cut_into(
    arena: &mut [u8],
    work: &mut [u8],
    layout: u32,
    records: usize,
    k: u32,
    mended: &mut u32,
) -> u32
    ensures { ForTable work.old records (λ room. gave.cut result mended.new arena.new work.new room.table
        ≡ cut_open_of (alone layout) arena.old room k) }
{
    match cut_open(arena, work, layout, records, k) {
        Ok(count) => {
            *mended = count;
            0
        }
        Err(refusal) => {
            *mended = 0;
            refusal.number()
        }
    }
}
