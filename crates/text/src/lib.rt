// The text of a report, put into a lent buffer piece by piece. Each piece gives the place after it.
// The buffer stays lent with a place beside it: a String may find no memory, and a report never fails.
#![tactic(auto)]

ghost use Rattle.std.specs.Prelude.{◌≡◌, ◌++◌, ◌+◌, ◌≤◌, length, drop};
ghost use Rattle.lanes.specs.Filled.{LanesFit};
ghost use Rattle.text.specs.Text.{digits, decimal, newline, refused_text, head_text, lane_text, lanes_text, opened_text};
ghost use Rattle.text.specs.Opened.{most_lanes, opened};
ghost use Rattle.text.specs.Put.{Put};

use format::numbers::LaneNo;
use lanes::ArenaView;
use machine::handle::Handle;
use machine::lane::Lane;

pub mod claims;
pub mod replay;

// A piece of text.
#[tactic(auto, using(crate::proofs::Laws::put_copied))]
fn put_text(out: &mut [u8], at: usize, text: &[u8]) -> usize
    requires { at + length text.now ≤ length out.old }
    ensures { Put out.old out.new at result text.now }
{
    let end = at + text.len();
    out[at..end].copy_from_slice(text);
    end
}

// The last digits of a number, at most `most` of them.
fn put_digits(out: &mut [u8], at: usize, n: u32, most: usize) -> usize
    requires { at + most ≤ length out.old }
    ensures { Put out.old out.new at result (digits most n) × (result ≤ at + most) }
{
    if most == 0 {
        return at;
    }
    if n < 10 {
        out[at] = b'0' + (n % 10) as u8;
        return at + 1;
    }
    let last = put_digits(out, at, n / 10, most - 1);
    out[last] = b'0' + (n % 10) as u8;
    last + 1
}

// A piece of text and a number.
fn put_named(out: &mut [u8], at: usize, name: &[u8], n: u32) -> usize
    requires { at + length name.now + 10 ≤ length out.old }
    ensures { Put out.old out.new at result (name.now ++ decimal n)
        × (result ≤ at + length name.now + 10) }
{
    let next = put_text(out, at, name);
    put_digits(out, next, n, 10)
}

// A line of a piece of text and a number.
fn put_line(out: &mut [u8], at: usize, name: &[u8], n: u32) -> usize
    requires { at + length name.now + 11 ≤ length out.old }
    ensures { Put out.old out.new at result (name.now ++ decimal n ++ newline)
        × (result ≤ at + length name.now + 11) }
{
    let next = put_named(out, at, name, n);
    put_text(out, next, b"\n")
}

// The lines before the lanes.
fn put_head(out: &mut [u8], size: u32, sectors: u32, lanes: u32, mended: u32) -> usize
    requires { 78 ≤ length out.old }
    ensures { Put out.old out.new 0 result (head_text size sectors lanes mended) × (result ≤ 78) }
{
    let a = put_line(out, 0, b"sector bytes ", size);
    let b = put_line(out, a, b"sectors ", sectors);
    let c = put_line(out, b, b"lanes ", lanes);
    put_line(out, c, b"mended ", mended)
}

// The line of a lane.
fn put_lane(out: &mut [u8], at: usize, l: u32, lane: Lane) -> usize
    requires { at + 48 ≤ length out.old }
    ensures { Put out.old out.new at result (lane_text l lane) × (result ≤ at + 48) }
{
    let a = put_named(out, at, b"lane ", l);
    let b = put_named(out, a, b" free ", lane.block.0);
    put_line(out, b, b" next ", lane.sequence.0)
}

// The lines of the lanes, each from the lane's record as the flog has it.
fn put_lanes(out: &mut [u8], at: usize, arena: &[u8], h: Handle) -> usize
    requires { LanesFit h arena.now × (h.figures.lanes ≤ most_lanes) × (at + 2304 ≤ length out.old) }
    ensures { Put out.old out.new at result (lanes_text (opened h arena.now).table h.figures.lanes)
        × (result ≤ at + 2304) }
{
    let mut next = at;
    for l in 0..h.figures.lanes {
        let view = ArenaView {
            bytes: arena,
            figures: h.figures,
            distance: h.distance,
        };
        let lane = view.found_lane(LaneNo(l));
        next = put_lane(out, next, l, lane);
    }
    next
}

// The report on a refused opening.
pub fn put_refused(out: &mut [u8; 4096], n: u32) -> usize
    ensures { (result ≡ length (refused_text n))
        × (out.new ≡ refused_text n ++ drop (length (refused_text n)) out.old) }
{
    put_line(out, 0, b"refused ", n)
}

// The report on an opened arena, by the handle and the arena that its opening left.
pub fn put_opened(out: &mut [u8; 4096], arena: &[u8], h: Handle, mended: u32) -> usize
    requires { LanesFit h arena.now × (h.figures.lanes ≤ most_lanes) }
    ensures { let text = opened_text (opened h arena.now) mended in
        (result ≡ length text) × (out.new ≡ text ++ drop (length text) out.old) }
{
    let figures = h.figures;
    let a = put_head(out, figures.size, figures.sectors, figures.lanes, mended);
    let b = put_lanes(out, a, arena, h);
    put_text(out, b, b"opened\n")
}
