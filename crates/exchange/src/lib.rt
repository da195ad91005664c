// The exchange of versions and parameters.
#![tactic(auto)]

mod acting; // acting.rt: what the received byte does
mod answering; // answering.rt: what an answerer does by itself
mod matching; // matching.rt: the entry that has the other end's parameters, and what carries it
mod originating; // originating.rt: what an originator does by itself
mod sending; // sending.rt: what is to be sent next
mod sent; // sent.rt: the byte that is sent
pub mod turn; // turn.rt: one slot
