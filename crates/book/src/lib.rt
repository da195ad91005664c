// The book that configures a unit: its bytes are read and kept, or refused by number, and a kept book is checked again.
#![tactic(auto)]

ghost use Rattle.std.specs.Prelude.{◌≡◌, ◌+◌, IfOk, IfErr};
ghost use Rattle.book.specs.Book.{book_of, params_of};
ghost use Rattle.book.specs.Reading.{number_of, offset_of, read_book, entry_part, part_at};
ghost use Rattle.book.specs.Refusals.{refusal_number, nothing_wrong, book_fault, book_no, book_offset};
ghost use Rattle.book.specs.Kept.{book_ok};

mod bytes; // bytes.rt: what stands where in the bytes, and the checks of the bytes themselves
mod checks; // checks.rt: the checks of the values and of the entries

pub const ORIGINATING: u8 = 0;

pub const ANSWERING: u8 = 1;

pub const MOST_ENTRIES: usize = 8;

// One profile: five parameters, the form of data, and the word's width in form 0.
#[derive(Clone, Copy, PartialEq, Eq, Debug)]
pub struct Entry {
    // five fields, not an array: for the theorems an array is a list of any length, and passes_read is of any book
    pub p0: u8,
    pub p1: u8,
    pub p2: u8,
    pub p3: u8,
    pub p4: u8,
    // a number, not an enum: 13 refuses a stored book with any other
    pub form: u8,
    pub w: u8,
}

impl Entry {
    // The five parameters in their order.
    pub fn params(self) -> [u8; 5]
        ensures { result ≡ params_of self }
    {
        [self.p0, self.p1, self.p2, self.p3, self.p4]
    }
}

// The kept book. Past the n entries stand entries of zeros.
#[derive(Clone, Copy, PartialEq, Eq, Debug)]
pub struct Book {
    // role and mask are numbers, not enums: 13 refuses a stored book with any other
    pub role: u8,
    pub mask: u8,
    pub limit: u16,
    pub n: u8,
    // an array beside its count: document 01 has eight entries kept whole, and 13 refuses a stored book with more past them
    pub entries: [Entry; MOST_ENTRIES],
}

// Why a book is refused, each with its number of refusal.
#[derive(Clone, Copy, PartialEq, Eq, Debug)]
pub enum Refusal {
    TooShort = 1,
    Mark = 2,
    BookVersion = 3,
    Role = 4,
    Mask = 5,
    Limit = 6,
    Count = 7,
    Form = 8,
    BarredForm = 9,
    SameParameters = 10,
    TooLong = 11,
    WordLength = 17,
}

impl Refusal {
    pub fn number(self) -> u8
        ensures { result ≡ refusal_number self }
    {
        self as u8
    }
}

// What is wrong: the refusal, and the offset of the first offending byte.
#[derive(Clone, Copy, PartialEq, Eq, Debug)]
pub struct Fault {
    pub refusal: Refusal,
    pub offset: usize,
}

// The verdict, with the kept book where it accepts, and zeros where it refuses. A struct, since theorem no_call speaks of
// what stands beside a refusal.
#[derive(Clone, Copy, PartialEq, Eq, Debug)]
pub struct BookRead {
    pub verdict: Result<(), Fault>,
    pub book: Book,
}

// What stands past the entries of a kept book.
pub const NO_ENTRY: Entry = Entry {
    p0: 0,
    p1: 0,
    p2: 0,
    p3: 0,
    p4: 0,
    form: 0,
    w: 0,
};

const NO_ENTRIES: [Entry; MOST_ENTRIES] = [NO_ENTRY; MOST_ENTRIES];

// What stands beside a refusal.
const NO_BOOK: Book = Book {
    role: 0,
    mask: 0,
    limit: 0,
    n: 0,
    entries: NO_ENTRIES,
};

// The verdict's number: 0 for an accepted book, as its promise has it, and so for the offset.
pub fn number(v: Result<(), Fault>) -> u8
    ensures { result ≡ number_of v }
{
    v.err().map_or(0, |f| f.refusal.number())
}

// The offset of the first offending byte: 0 for an accepted book.
pub fn offset(v: Result<(), Fault>) -> usize
    ensures { result ≡ offset_of v }
{
    v.err().map_or(0, |f| f.offset)
}

// The book of s, or what is wrong with it first.
#[tactic(auto, using(crate::proofs::Header::first_ten), unfolding(crate::specs::Refusals::book_fault, crate::specs::Refusals::values_fault, crate::specs::Refusals::entries_fault))]
fn checked(s: &[u8]) -> Result<Book, Fault>
    ensures accepted { IfOk result (λ b. (book_fault s.now ≡ nothing_wrong) × (b ≡ book_of s.now)) }
    ensures refused { IfErr result (λ f. book_fault s.now ≡ Err f) }
{
    let header = bytes::header(s)?;
    let mut book = bytes::values(header);
    checks::values_fault(book)?;
    let version = bytes::version_in(header);
    bytes::length_fault(version, s, book.n)?;
    let n = usize::from(book.n);
    book.entries = bytes::load(version, s, n);
    checks::entries_fault(version, &book.entries[..n], book.mask)?;
    Ok(book)
}

// The book of s, or its refusal and the offset of the first offending byte.
#[tactic(auto, unfolding(crate::specs::Reading::read_book))]
pub fn read_book(s: &[u8]) -> BookRead
    ensures value { result ≡ read_book s.now }
    ensures number { number_of result.verdict ≡ book_no s.now }
    ensures offset { offset_of result.verdict ≡ book_offset s.now }
{
    match checked(s) {
        Ok(book) => BookRead {
            verdict: Ok(()),
            book,
        },
        Err(f) => BookRead {
            verdict: Err(f),
            book: NO_BOOK,
        },
    }
}

// Entry i's seven bytes of s themselves, or an empty part for a refused book or an i not below n: no option, since the promise says where
// in s an empty part stands, too.
pub fn entry_part(s: &[u8], i: usize) -> &[u8]
    ensures result_value { result.now ≡ entry_part s.now i }
    ensures place { result.ref_ptr ≡ (s.entry.ref_ptr.0, s.entry.ref_ptr.1 + part_at s.now i) }
{
    let answer = read_book(s);
    if answer.verdict.is_err() {
        return &s[..0];
    }
    if usize::from(answer.book.n) <= i {
        return &s[..0];
    }
    let k = bytes::entry_start(bytes::BOOK_VERSION, i);
    &s[k..k + bytes::ENTRY_LENGTH]
}

// Whether b is a book that reading yields.
#[tactic(auto, using(crate::proofs::NothingWrong::few), unfolding(crate::specs::Kept::book_ok, crate::specs::Kept::is_padded, crate::specs::Book::version_of, crate::specs::Refusals::entries_fault))]
pub fn book_ok(b: Book) -> bool
    ensures { result ≡ book_ok b }
{
    if checks::values_fault(b).is_err() {
        return false;
    }
    let n = usize::from(b.n);
    let entries = checks::entries_fault(bytes::BOOK_VERSION, &b.entries[..n], b.mask);
    entries.is_ok() && checks::all_none(&b.entries[n..])
}
