// The start of a call.
ghost use Rattle.std.specs.Prelude.{◌≡◌};
ghost use Rattle.book.specs.Reading.{number_of, offset_of, read_book};
ghost use Rattle.book.specs.Refusals.{book_no, book_offset};
ghost use Rattle.protocol.specs.Slot.{start_of};

use crate::slot::started;
use book::read_book;
use protocol::Start;

// A lent book is refused by its number, at the first offending byte, or starts an end before slot 0.
#[tactic(auto, unfolding(protocol::specs::Slot::start_of))]
pub fn start(s: &[u8]) -> Start
    ensures value { result ≡ start_of (read_book s.now) }
    ensures number { number_of result.verdict ≡ book_no s.now }
    ensures offset { offset_of result.verdict ≡ book_offset s.now }
{
    let answer = read_book(s);
    Start {
        verdict: answer.verdict,
        state: started(answer.book),
    }
}
