// The state machine of an arena: lane records, the handle, refusals, and the claims about the calls.
#![tactic(auto)]

pub mod claims;
pub mod handle;
pub mod lane;
pub mod refusal;
