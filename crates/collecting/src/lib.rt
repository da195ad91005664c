// What an end awaits in the exchange, and what it takes from its book.
#![tactic(auto)]

pub mod hearing; // hearing.rt: what a received byte does to what is awaited
pub mod kept_book; // kept_book.rt: what the exchange takes from the book
pub mod lengths; // lengths.rt: how many bytes are awaited and sent
