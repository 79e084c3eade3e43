// The 64 bytes of a handle, and the 28 of a lane's record, as a host holds them. C fixes the place of each field, so each is stored by itself.
#![tactic(auto)]

ghost use Rattle.std.specs.Prelude.{◌≡◌, ◌≤◌, length};
ghost use Rattle.words.specs.Word.{put_words};
ghost use Rattle.handlebytes.specs.Bytes.{decode_handle, start_words, figure_words, handle_words, record_words};

use layout::{Figures, figures_at};
use machine::handle::Handle;
use machine::lane::Lane;
use words::{long_at, put_long, put_word, word_at};

pub mod claims;

// The handle that the bytes stand for.
pub fn handle_in(b: &[u8; 64]) -> Handle
    ensures { result ≡ decode_handle b.now }
{
    let figures = figures_at(b, 10, 2);
    Handle {
        length: long_at(b, 0),
        distance: word_at(b, 15),
        figures: figures,
    }
}

// Stores a record.
pub fn put_record(b: &mut [u8; 28], r: Lane)
    ensures { b.new ≡ put_words b.old 0 (record_words r) }
{
    put_word(b, 0, r.busy);
    put_word(b, 1, r.block.0);
    put_word(b, 2, r.half);
    put_word(b, 3, r.sequence.0);
    put_word(b, 4, r.sector.0);
    put_word(b, 5, r.old.0);
    put_word(b, 6, r.made);
}

// Stores the slice's length and the four starts.
fn put_starts(b: &mut [u8], total: u64, f: Figures)
    requires { 64 ≤ length b.old }
    ensures { b.new ≡ put_words b.old 0 (start_words total f) }
{
    put_long(b, 0, total);
    put_long(b, 2, f.dataoff);
    put_long(b, 4, f.mapoff);
    put_long(b, 6, f.flogoff);
    put_long(b, 8, f.copyoff);
}

// Stores the other figures and the layout.
fn put_figures(b: &mut [u8], f: Figures, distance: u32)
    requires { 64 ≤ length b.old }
    ensures { b.new ≡ put_words b.old 10 (figure_words f distance) }
{
    put_word(b, 10, f.size);
    put_word(b, 11, f.sectors);
    put_word(b, 12, f.internal);
    put_word(b, 13, f.blocks);
    put_word(b, 14, f.lanes);
    put_word(b, 15, distance);
}

// Stores a handle.
pub fn put_handle(b: &mut [u8; 64], h: Handle)
    ensures { b.new ≡ put_words b.old 0 (handle_words h) }
{
    put_starts(b, h.length, h.figures);
    put_figures(b, h.figures, h.distance);
}
