// Two books joined over a delay.
ghost use Rattle.std.specs.Prelude.{◌≡◌, max, Err, IfOk, IfErr};
ghost use Rattle.std.specs.NonZero.{non_zero_u8_get};
ghost use Rattle.book.specs.Book.{book_of};
ghost use Rattle.book.specs.Refusals.{nothing_wrong, book_fault};
ghost use Rattle.protocol.specs.Joined.{joined};
ghost use Rattle.protocol.specs.Slot.{started};
ghost use Rattle.pair.specs.Running.{ran_for};
ghost use Rattle.pair.specs.Join.{right_roles, concluded_of, join_of};

use crate::running::Pair;
use book::{ANSWERING, Fault, ORIGINATING, Refusal};
use endpoint::slot::outcome;
use endpoint::start::start;
use protocol::{Endpoint, Outcome};
use std::num::NonZeroU8;

// How both ends of two books that join have concluded.
#[derive(Clone, Copy)]
pub struct Concluded {
    pub o: Outcome,
    pub a: Outcome,
}

// Why two books do not join.
#[derive(Clone, Copy, PartialEq, Eq, Debug)]
pub enum NotJoined {
    // the delay is 0, or, in a report, the input too short or too long
    InputRefused,
    // the originator's book is at fault, or else the answerer's, with this refusal
    RefusedO(Refusal),
    RefusedA(Refusal),
    WrongRole,
}

// The two ends are made one, a `Pair`, where they run.
fn right_roles(o: Endpoint, a: Endpoint) -> bool
    ensures { result ≡ right_roles o.book a.book }
{
    (o.book.role == ORIGINATING) & (a.book.role == ANSWERING)
}

// The end that a book starts, or what is wrong with the book.
#[tactic(auto, using(crate::proofs::BooksJoined::starts, crate::proofs::BooksJoined::is_refused))]
fn started(s: &[u8]) -> Result<Endpoint, Fault>
    ensures starts { IfOk result (λ e. (book_fault s.now ≡ nothing_wrong) × (e ≡ started (book_of s.now))) }
    ensures refused { IfErr result (λ f. book_fault s.now ≡ Err f) }
{
    let start = start(s);
    start.verdict?;
    Ok(start.state)
}

// Runs both ends until both have concluded; the larger of their limits ends that.
fn ran(o: Endpoint, a: Endpoint, delay: NonZeroU8) -> Concluded
    ensures { result ≡ concluded_of (ran_for (max o.book.limit a.book.limit) (joined o a (non_zero_u8_get delay))) }
{
    let mut pair = Pair::new(o, a, delay);
    pair.run(o.book.limit.max(a.book.limit));
    Concluded {
        o: outcome(pair.o),
        a: outcome(pair.a),
    }
}

#[tactic(auto, unfolding(crate::specs::Join::join_of))]
pub fn join(o: &[u8], a: &[u8], delay: u8) -> Result<Concluded, NotJoined>
    ensures { result ≡ join_of o.now a.now delay }
{
    let delay = NonZeroU8::new(delay).ok_or(NotJoined::InputRefused)?;
    let o = started(o).map_err(|f| NotJoined::RefusedO(f.refusal))?;
    let a = started(a).map_err(|f| NotJoined::RefusedA(f.refusal))?;
    if !right_roles(o, a) {
        return Err(NotJoined::WrongRole);
    }
    Ok(ran(o, a, delay))
}
