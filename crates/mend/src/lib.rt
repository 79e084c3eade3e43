// The stores of an opening: a pending lane's sector is mapped to the lane's new block.
#![tactic(auto)]

ghost use Rattle.std.specs.Prelude.{◌≡◌, take};
ghost use Rattle.layout.specs.Place.{layout_of};
ghost use Rattle.machine.specs.state.Stores.{put_all};
ghost use Rattle.machine.specs.state.Flog.{pending};
ghost use Rattle.machine.specs.calls.Opening.{mends, pending_lanes};
ghost use Rattle.lanes.specs.Fit.{LaneFit};
ghost use Rattle.mend.specs.Mend.{Mendable, mended_at};

use format::map::mapped_word;
use format::numbers::LaneNo;
use lanes::ArenaView;
use layout::{Figures, map_place};
use words::put_word;

// Whether a lane is pending. If it is, and a store is left to make, it is mended: every mended word is stored here.
fn mend_lane(a: &mut [u8], f: Figures, d: u32, l: LaneNo, left: bool) -> bool
    requires { LaneFit d f a.old l.0 }
    ensures value { result ≡ pending (layout_of d f) a.old l.0 }
    ensures a_after { a.new ≡ mended_at (layout_of d f) a.old l.0 left }
{
    let view = ArenaView {
        bytes: &a[..],
        figures: f,
        distance: d,
    };
    if !view.is_pending(l) {
        return false;
    }
    if left {
        let h = view.newer_flog(l);
        put_word(a, map_place(f, h.sector), mapped_word(h.new));
    }
    true
}

// Makes the first k mending stores, in rising order of the lanes, and counts the pending lanes. The bytes are lent to be changed, so that a
// view of them lasts for one lane's reading.
pub fn mend(a: &mut [u8], f: Figures, d: u32, k: u32) -> u32
    requires { Mendable d f a.old }
    ensures value { result ≡ pending_lanes (layout_of d f) a.old f.lanes }
    ensures a_after { a.new ≡ put_all (layout_of d f) (take k (mends (layout_of d f) a.old f.lanes)) a.old }
{
    let mut count = 0;
    for l in 0..f.lanes {
        if mend_lane(a, f, d, LaneNo(l), count < k) {
            count += 1;
        }
    }
    count
}
