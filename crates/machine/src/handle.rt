// The handle that opening gives: the slice's length, the layout and the figures. The lanes' records are in a table that is lent beside it.
ghost use Rattle.std.specs.Prelude.{◌≡◌, ℕ};
ghost use Rattle.machine.specs.state.Lane.{lane_allowed};
ghost use Rattle.layout.specs.Place.{layout_of};
ghost use Rattle.machine.specs.state.Handle.{handle_allowed};

use super::lane::Lane;
use layout::{Figures, distance_allowed, figures_allowed, length_allowed};

#[derive(Clone, Copy, Debug, PartialEq, Eq)]
pub struct Handle {
    pub length: u64,
    // The layout: bytes from a lane's first half to its second.
    pub distance: u32,
    pub figures: Figures,
}

// Whether a lane's record is in range, idle or not.
#[tactic(auto, unfolding(crate::specs::state::Lane::lane_allowed, layout::specs::Place::layout_of))]
pub fn lane_allowed(f: Figures, r: Lane) -> bool
    ensures { (d : ℕ) → result ≡ lane_allowed (layout_of d f) r }
{
    r.block.0 < f.blocks
        && r.old.0 < f.blocks
        && r.half < 2
        && 1 <= r.sequence.0
        && r.sequence.0 <= 3
        && r.sector.0 < f.sectors
        && r.busy <= 1
        && r.made < f.size / 4 + 5
}

// Rule 16 does not apply to the handle: the layout and the figures are allowed and match a slice of that length.
#[tactic(auto, unfolding(crate::specs::state::Handle::handle_allowed))]
pub fn handle_allowed(h: Handle, total: usize) -> bool
    ensures { result ≡ handle_allowed h total }
{
    length_allowed(total)
        && h.length == total as u64
        && distance_allowed(h.distance)
        && figures_allowed(h.figures, total)
}
