// One end of a call.
#![tactic(auto)]

pub mod slot;
pub mod start;
