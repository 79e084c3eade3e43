// A run log: records of starts, steps and cuts, decoded at an offset, and a reader that keeps hold of the lent log and its place.
#![tactic(auto)]

pub mod claims;
pub mod reader;
pub mod record;
