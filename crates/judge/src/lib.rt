// Judging an arena: the info block that counts, and rules 1 to 8 and 18 of opening. Nothing is stored to an arena here.
#![tactic(auto)]

pub mod info;
pub mod opening;
