// Two ends joined by a channel that does no damage.
#![tactic(auto)]

pub mod join;
pub mod report;
mod running;
