// The bytes of a book: what stands where, and the checks of the bytes themselves.
ghost use Rattle.std.specs.Prelude.{◌≡◌, ◌+◌, ◌*◌, ◌<◌, ◌≤◌, length, take, IfOk, IfErr, IsErrOf};
ghost use Rattle.book.specs.Book.{least_header, header_length, most_entries, entry_start, version_in, entry_at, kept_entries, header_of};
ghost use Rattle.book.specs.Refusals.{fault, nothing_wrong, is_mark, start_fault, length_fault};

use super::{Book, Entry, Fault, MOST_ENTRIES, NO_ENTRIES, Refusal};

pub(crate) const BOOK_VERSION: u16 = 1;

// The bytes of the shortest header.
const LEAST_HEADER: usize = 10;

pub(crate) const ENTRY_LENGTH: usize = 7;

// Where each field of the header starts.
const MARK_AT: usize = 0;

const VERSION_AT: usize = 3;

pub(crate) const ROLE_AT: usize = 5;

pub(crate) const MASK_AT: usize = 6;

pub(crate) const LIMIT_AT: usize = 7;

pub(crate) const COUNT_AT: usize = 9;

// Where in an entry its form and its w stand.
pub(crate) const FORM_IN: usize = 5;

pub(crate) const WIDTH_IN: usize = 6;

// A refusal and an offset.
pub(crate) fn fault(refusal: Refusal, offset: usize) -> Fault
    ensures { IsErrOf (fault refusal offset) result }
{
    Fault { refusal, offset }
}

// The 16-bit number of two bytes.
fn word(high: u8, low: u8) -> u16
    ensures { result ≡ 256 * high + low }
{
    u16::from_be_bytes([high, low])
}

fn is_mark(s: &[u8; LEAST_HEADER]) -> bool
    ensures { result ≡ is_mark s.now }
{
    matches!(s, [b'T', b'L', b'B', ..])
}

// The version that s is of.
#[tactic(auto, unfolding(crate::specs::Book::version_in))]
pub(crate) fn version_in(s: &[u8; LEAST_HEADER]) -> u16
    ensures { result ≡ version_in s.now }
{
    word(s[VERSION_AT], s[VERSION_AT + 1])
}

// The header of s, or what is wrong with its start: refusal 1 for fewer than 10 bytes, and refusals 2 and 3.
#[tactic(auto, using(crate::proofs::Header::first_ten), unfolding(crate::specs::Refusals::start_fault))]
pub(crate) fn header(s: &[u8]) -> Result<&[u8; LEAST_HEADER], Fault>
    ensures fine { IfOk result (λ h. (start_fault s.now ≡ nothing_wrong) × (h.now ≡ take least_header s.now)) }
    ensures wrong { IfErr result (λ f. start_fault s.now ≡ Err f) }
{
    let Some(header) = s.first_chunk() else {
        return Err(fault(Refusal::TooShort, s.len()));
    };
    if !is_mark(header) {
        return Err(fault(Refusal::Mark, MARK_AT));
    }
    if version_in(header) != BOOK_VERSION {
        return Err(fault(Refusal::BookVersion, VERSION_AT));
    }
    Ok(header)
}

// The bytes before the entries, by the book's version: 10 in the only one.
#[tactic(auto, unfolding(crate::specs::Book::header_length))]
fn header_length(version: u16) -> usize
    ensures { (result ≡ header_length version) × (result < 256) }
{
    LEAST_HEADER
}

// Where entry i starts, which is where i entries end.
pub(crate) fn entry_start(version: u16, i: usize) -> usize
    requires { i < 256 }
    ensures { (result ≡ entry_start version i) × (result < 2048) }
{
    header_length(version) + ENTRY_LENGTH * i
}

// Refusal 1 for fewer than 10+7n bytes, and refusal 11.
#[tactic(auto, unfolding(crate::specs::Refusals::length_fault))]
pub(crate) fn length_fault(version: u16, s: &[u8], n: u8) -> Result<(), Fault>
    ensures { result ≡ length_fault version s.now n }
{
    let end = entry_start(version, usize::from(n));
    if s.len() < end {
        return Err(fault(Refusal::TooShort, s.len()));
    }
    if end < s.len() {
        return Err(fault(Refusal::TooLong, end));
    }
    Ok(())
}

// The values of a header, with no entries yet.
pub(crate) fn values(s: &[u8; LEAST_HEADER]) -> Book
    ensures { result ≡ header_of s.now }
{
    Book {
        role: s[ROLE_AT],
        mask: s[MASK_AT],
        limit: word(s[LIMIT_AT], s[LIMIT_AT + 1]),
        n: s[COUNT_AT],
        entries: NO_ENTRIES,
    }
}

// The entry that seven bytes make.
fn entry_from(bytes: &[u8; ENTRY_LENGTH]) -> Entry
    ensures { result ≡ entry_at bytes.now 0 }
{
    let [p0, p1, p2, p3, p4, form, w] = *bytes;
    Entry {
        p0,
        p1,
        p2,
        p3,
        p4,
        form,
        w,
    }
}

// The array that keeps the first n entries of s.
#[tactic(auto, using(crate::proofs::Loading::kept_suc), unfolding(crate::specs::Book::kept_entries, crate::specs::Book::entries_of))]
pub(crate) fn load(version: u16, s: &[u8], n: usize) -> [Entry; MOST_ENTRIES]
    requires { (n ≤ most_entries) × (entry_start version n ≤ length s.now) }
    ensures { result ≡ kept_entries version s.now n }
{
    let mut es = NO_ENTRIES;
    let (chunks, _) = s[header_length(version)..].as_chunks();
    for i in 0..n {
        es[i] = entry_from(&chunks[i]);
    }
    es
}
