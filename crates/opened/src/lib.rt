// An open end: how its data is laid, both halves of its line, and what a slot is given. What it reads is `reading`, what it sends
// `writing`.
#![tactic(auto)]

pub mod drive; // drive.rt: what a slot is given besides the received byte
pub mod line; // line.rt: both halves, and the line at the opening
pub mod shape; // shape.rt: how its data is laid
