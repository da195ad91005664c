// Bytes on the channel, forms of data, the vote and the version choice.
#![tactic(auto)]

pub mod byte;
pub mod kind;
mod kind_table;
pub mod unit;
pub mod version;
pub mod vote;
