// The calls on an arena by value: making, showing the info block that counts, opening and cut opening, reading, and a write step by step or
// whole. What they ask of the table of lane records is seen before, and what they give to it is stored after.
#![tactic(auto)]

pub mod open;

pub use judge::info::info_block;
pub use making::make;
pub use reading::read_seen;
pub use writing::{start_seen, step_seen, write_seen};
