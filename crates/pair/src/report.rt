// What the join program prints for an input. Functions of a text and not methods, since the type is another crate's, and a trait would have
// each twice, declared and made.
ghost use Rattle.std.specs.Prelude.{◌≡◌};
ghost use Rattle.text.specs.Text.{text, appended};
ghost use Rattle.pair.specs.Report.{open_line, refused_line, end_line, at_fault, lines_of, join_says};

use crate::join::{Concluded, NotJoined, join};
use book::{Entry, Refusal};
use protocol::Outcome;
use text::Text;

const BOOK_LENGTH: usize = 17;

const MOST_BYTES: usize = 84;

// A profile and the slot in which the end opened on it.
#[tactic(auto, using(text::proofs::Joined::appended_append), unfolding(crate::specs::Report::open_line))]
fn open_line(t: Text, version: u8, profile: Entry, slot: u16) -> Text
    ensures { result ≡ appended t (open_line version profile slot) }
{
    let versioned = t.word(b" open ").decimal(u16::from(version)).word(b" ");
    let profiled = versioned.parameters(profile).word(b" ");
    profiled.decimal(slot).word(b"\n")
}

// The number is that of an outcome.
#[tactic(auto, using(text::proofs::Joined::appended_append), unfolding(crate::specs::Report::refused_line))]
fn refused_line(t: Text, number: u8, slot: u16) -> Text
    ensures { result ≡ appended t (refused_line number slot) }
{
    t.word(b" refused ")
        .decimal(u16::from(number))
        .word(b" ")
        .decimal(slot)
        .word(b"\n")
}

// The line of an end whose letter is written.
#[tactic(auto, unfolding(crate::specs::Report::end_line))]
fn end_line(t: Text, o: Outcome) -> Text
    ensures { result ≡ appended t (end_line o) }
{
    match o {
        Outcome::Exchanging => t.word(b" exchange\n"),
        Outcome::Open {
            version,
            profile,
            slot,
            ..
        } => open_line(t, version, profile, slot),
        Outcome::Refused { number, slot } => refused_line(t, number, slot),
    }
}

fn at_fault(t: Text, refusal: Refusal) -> Text
    ensures { result ≡ appended t (at_fault refusal) }
{
    t.word(b" refused by number ")
        .decimal(u16::from(refusal.number()))
        .word(b"\n")
}

#[tactic(auto, using(text::proofs::Joined::appended_text), unfolding(crate::specs::Report::lines_of))]
fn lines(j: Result<Concluded, NotJoined>) -> Text
    ensures { result ≡ text (lines_of j) }
{
    match j {
        Err(NotJoined::InputRefused) => Text::new().word(b"input refused\n"),
        Err(NotJoined::RefusedO(refusal)) => at_fault(Text::new().word(b"O"), refusal),
        Err(NotJoined::RefusedA(refusal)) => at_fault(Text::new().word(b"A"), refusal),
        Err(NotJoined::WrongRole) => Text::new().word(b"pair refused\n"),
        Ok(Concluded { o, a }) => end_line(end_line(Text::new().word(b"O"), o).word(b"A"), a),
    }
}

// The input: the originator's book, the answerer's, one delay byte, at the places that document 01 gives. Fewer than 18 bytes do not hold
// the first book and a delay.
#[tactic(auto, using(crate::proofs::Reported::parts), unfolding(crate::specs::Report::join_says))]
fn joining(s: &[u8]) -> Result<Concluded, NotJoined>
    ensures { lines_of result ≡ join_says s.now }
{
    match s.split_at_checked(BOOK_LENGTH) {
        Some((o, [a @ .., delay])) if s.len() <= MOST_BYTES => join(o, a, *delay),
        _ => Err(NotJoined::InputRefused),
    }
}

pub fn report(s: &[u8]) -> Text
    ensures { result ≡ text (join_says s.now) }
{
    lines(joining(s))
}
