// What a person is told of a book: the first fault, or what the book says, line by line. Functions of a text and not methods, since the
// type is another crate's, and a trait would have each twice, declared and made; a number that is told fits 16 bits, as each `requires`
// says.
#![tactic(auto)]

ghost use Rattle.std.specs.Prelude.{◌≡◌, true, ◌^◌, ◌<◌, min, length};
ghost use Rattle.book.specs.Kept.{book_ok};
ghost use Rattle.book.specs.Refusals.{refusal_number};
ghost use Rattle.text.specs.Output.{over};
ghost use Rattle.text.specs.Text.{text, appended};
ghost use Rattle.bookwords.specs.Words.{fault_named, fault_at, refused_line, role_named, versions_named, header_lines, width_named, entry_line, accepted_lines, book_says};

use book::{Book, Entry, Fault, ORIGINATING, Refusal, read_book};
use text::Text;

// What the refusal finds wrong.
#[tactic(auto, unfolding(crate::specs::Words::fault_named))]
fn fault_named(t: Text, refusal: Refusal) -> Text
    ensures { result ≡ appended t (fault_named (refusal_number refusal)) }
{
    match refusal {
        Refusal::TooShort => t.word(b"the book is too short"),
        Refusal::Mark => t.word(b"the mark"),
        Refusal::BookVersion => t.word(b"the version of the book"),
        Refusal::Role => t.word(b"the role"),
        Refusal::Mask => t.word(b"the version mask"),
        Refusal::Limit => t.word(b"the limit"),
        Refusal::Count => t.word(b"the count of entries"),
        Refusal::Form => t.word(b"the form"),
        Refusal::BarredForm => t.word(b"form 8 under this version mask"),
        Refusal::SameParameters => t.word(b"the parameters of an earlier entry"),
        Refusal::TooLong => t.word(b"bytes beyond the last entry"),
        Refusal::WordLength => t.word(b"the word length"),
    }
}

// The number and the byte.
#[tactic(auto, using(text::proofs::Joined::appended_text), unfolding(crate::specs::Words::fault_at))]
fn fault_at(f: Fault) -> Text
    requires { f.offset < 2 ^ 16 }
    ensures { result ≡ text (fault_at f) }
{
    Text::new()
        .word(b"refused by number ")
        .decimal(u16::from(f.refusal.number()))
        .word(b" at byte ")
        .decimal(f.offset as u16)
        .word(b": ")
}

// Its answer and its buffer in a clause each, here and below: one definition for both would be read in place of two equations.
fn refused(f: Fault, out: &mut [u8]) -> usize
    requires { f.offset < 2 ^ 16 }
    ensures value { result ≡ min (length (refused_line f)) (length out.old) }
    ensures out_after { out.new ≡ over (refused_line f) out.old }
{
    let at = fault_at(f).put(out, 0);
    let named = fault_named(Text::new(), f.refusal).word(b"\n");
    named.put(out, at)
}

fn role_named(t: Text, role: u8) -> Text
    ensures { result ≡ appended t (role_named role) }
{
    if role == ORIGINATING {
        return t.word(b"originating\n");
    }
    t.word(b"answering\n")
}

fn versions_named(t: Text, mask: u8) -> Text
    ensures { result ≡ appended t (versions_named mask) }
{
    match mask {
        1 => t.word(b"versions 1\n"),
        2 => t.word(b"versions 2\n"),
        _ => t.word(b"versions 1 2\n"),
    }
}

// What stands in the header.
#[tactic(auto, using(text::proofs::Joined::appended_text), unfolding(crate::specs::Words::header_lines))]
fn header_lines(b: Book) -> Text
    ensures { result ≡ text (header_lines b) }
{
    let played = role_named(Text::new().word(b"accepted\n"), b.role);
    let limited = versions_named(played, b.mask).word(b"limit ");
    limited.decimal(b.limit).word(b"\n")
}

// A w is told in form 0 alone.
#[tactic(auto, using(text::proofs::Joined::appended_append), unfolding(text::specs::Text::appended))]
fn width_named(t: Text, e: Entry) -> Text
    ensures { result ≡ appended t (width_named e) }
{
    if e.form == 0 {
        return t.word(b" w ").decimal(u16::from(e.w));
    }
    t
}

#[tactic(auto, using(text::proofs::Joined::appended_text), unfolding(crate::specs::Words::entry_line))]
fn entry_line(i: usize, e: Entry) -> Text
    requires { i < 2 ^ 16 }
    ensures { result ≡ text (entry_line i e) }
{
    let numbered = Text::new().word(b"entry ").decimal(i as u16).word(b": ");
    let formed = numbered
        .parameters(e)
        .word(b" form ")
        .decimal(u16::from(e.form));
    width_named(formed, e).word(b"\n")
}

fn accepted(b: Book, out: &mut [u8]) -> usize
    requires { book_ok b ≡ true }
    ensures value { result ≡ min (length (accepted_lines b)) (length out.old) }
    ensures out_after { out.new ≡ over (accepted_lines b) out.old }
{
    // the place that `put` promises, from one line to the next
    let mut at = header_lines(b).put(out, 0);
    let entries = &b.entries[..usize::from(b.n)];
    for (i, e) in entries.iter().enumerate() {
        at = entry_line(i, *e).put(out, at);
    }
    at
}

// What is told of s stands in out from its start on, as much of it as there is room for; the reply is how much that is.
pub fn told(s: &[u8], out: &mut [u8]) -> usize
    ensures value { result ≡ min (length (book_says s.now)) (length out.old) }
    ensures out_after { out.new ≡ over (book_says s.now) out.old }
{
    let answer = read_book(s);
    match answer.verdict {
        Ok(()) => accepted(answer.book, out),
        Err(f) => refused(f, out),
    }
}
