// The ranges behind refusal 13: a count, position or value outside the range that its phase, role and book allow.
#![tactic(auto)]

ghost use Rattle.std.specs.Prelude.{◌≡◌, ◌&&◌, ◌+◌, ◌-◌, ◌*◌, eqb, ltb, leb, drop};
ghost use Rattle.ground.specs.Digits.{bit, all_below};
ghost use Rattle.channel.specs.Forms.{word_fits};
ghost use Rattle.protocol.specs.Lengths.{all_parameter_bytes};
ghost use Rattle.protocol.specs.Ranges.{awaited_in, in_hand, nibbles_in, values_in, behind, answering_in, originating_in, sending_in, is_version, may_lack, version_in, due_in, claim_in, half_in, outbound_in, inbound_in, refused_in, exchange_in, open_in, phase_in};

use book::Book;
use channel::unit;
use collecting::hearing::{awaits_hail, has_all, has_identifier, item_of};
use collecting::kept_book::{entry_of, identifier, left_out, originates};
use collecting::lengths::{GROUP_LENGTH, IDENTIFIER_RUN, all_parameter_bytes, run_length};
use opened::shape::{OPENING_SD, has_pair, is_word, opening_bytes, shape_of};
use protocol::{
    Awaited, CLOCK, Claim, Inbound, Line, NO_PROFILE, NO_VERSION, Outbound, Phase, Sending, Shape,
};

// The places of a group, and the values: the identifier and p0 to p4.
const PLACES: usize = 6;

// Each number from a place on is below the limit.
fn all_below(limit: u8, xs: [u8; PLACES], from: u8) -> bool
    ensures { result ≡ all_below limit (drop from xs) }
{
    xs.iter().skip(usize::from(from)).all(|&x| x < limit)
}

// A run is shorter than the one awaited; a group in hand is not whole.
#[tactic(auto, unfolding(protocol::specs::Ranges::awaited_in))]
fn awaited_in(b: Book, a: Awaited) -> bool
    ensures { result ≡ awaited_in b a }
{
    match a {
        Awaited::Run { item, count } => (item <= 5) & (count < run_length(b, item)),
        Awaited::Group { item, count } => (item <= 5) & (count < GROUP_LENGTH),
        Awaited::Nothing => true,
    }
}

// How many nibbles are in hand.
fn in_hand(a: Awaited) -> u8
    ensures { result ≡ in_hand a }
{
    match a {
        Awaited::Group { count, .. } => count,
        Awaited::Run { .. } | Awaited::Nothing => 0,
    }
}

// A nibble is of 4 bits; zeros stand past the nibbles in hand, and past the values voted.
#[tactic(auto, unfolding(protocol::specs::Ranges::nibbles_in))]
fn nibbles_in(a: Awaited, nibbles: [u8; PLACES]) -> bool
    ensures { result ≡ nibbles_in a nibbles }
{
    all_below(16, nibbles, 0) & all_below(1, nibbles, in_hand(a))
}

#[tactic(auto, unfolding(protocol::specs::Ranges::values_in))]
fn values_in(a: Awaited, values: [u8; PLACES]) -> bool
    ensures { result ≡ values_in a values }
{
    all_below(1, values, item_of(a))
}

// While an answerer sends its mask, the first group that it may be hearing came no earlier than its own went.
fn behind(i: u8, a: Awaited) -> bool
    ensures { result ≡ behind i a }
{
    matches!(a, Awaited::Group { item: 0, count } if count < i)
}

// Whether a mask has the bit of a version.
fn has_version(mask: u8, version: u8) -> bool
    ensures { result ≡ (leb 1 version && leb version 8 && eqb (bit (version - 1) mask) 1) }
{
    (1..=8).contains(&version) && (mask >> (version - 1)) % 2 == 1
}

// A version that the identifier can have settled.
#[tactic(auto, unfolding(protocol::specs::Ranges::is_version))]
fn is_version(b: Book, version: u8) -> bool
    ensures { result ≡ is_version b version }
{
    has_version(identifier(b), version)
}

// Whether a high nibble is of a word of w bits, of which the low nibble takes four.
fn high_fits(w: u8, high: u8) -> bool
    ensures { result ≡ word_fits w (16 * high) }
{
    if w < 4 {
        high == 0
    } else {
        unit::word_fits(w - 4, high)
    }
}

// The high nibble due is of a word of w bits, after the first bytes; a received low nibble is any.
fn due_in(s: Shape, opening: u8, due: Option<u8>) -> bool
    ensures { result ≡ due_in s opening due }
{
    match s {
        Shape::Word(w) => match due {
            None => true,
            Some(high) => (OPENING_SD <= opening) & high_fits(w, high),
        },
        Shape::Unit(_) => due.is_none(),
    }
}

fn half_in(s: Shape, half: Option<u8>) -> bool
    ensures { result ≡ half_in s half }
{
    match half {
        None => true,
        Some(low) => is_word(s) & (low < 16),
    }
}

// A second Sd is due, or a unit owed the line, in forms 0 and 6 alone, after the 16 Sd, and while no DH is due.
fn claim_in(s: Shape, opening: u8, due: Option<u8>, claim: Claim) -> bool
    ensures { result ≡ claim_in s opening due claim }
{
    let may = !has_pair(s) & (OPENING_SD <= opening) & due.is_none();
    match claim {
        Claim::Free => true,
        Claim::Second(_) | Claim::Owed => may,
    }
}

// BK of the last two Sd sent is off, but in form 0; their leads are any.
#[tactic(auto, unfolding(protocol::specs::Ranges::outbound_in))]
fn outbound_in(s: Shape, o: Outbound) -> bool
    ensures { result ≡ outbound_in s o }
{
    (o.opening <= opening_bytes(s))
        & due_in(s, o.opening, o.due)
        & claim_in(s, o.opening, o.due, o.claim)
        & (is_word(s) | !(o.last.bk | o.before.bk))
}

#[tactic(auto, unfolding(protocol::specs::Ranges::inbound_in))]
fn inbound_in(s: Shape, i: Inbound) -> bool
    ensures { result ≡ inbound_in s i }
{
    half_in(s, i.half) & (i.pair <= 2) & (has_pair(s) | (i.pair == 0))
}

fn is_last(slot: u16, limit: u16) -> bool
    ensures { result ≡ eqb (slot + 1) limit }
{
    u32::from(slot) + 1 == u32::from(limit)
}

// An end that refuses 23 does so in the last slot. A stored state may hold any number.
#[tactic(auto, unfolding(protocol::specs::Ranges::refused_in))]
fn refused_in(b: Book, number: u8, slot: u16) -> bool
    ensures { result ≡ refused_in b number slot }
{
    (slot < b.limit)
        & (matches!(number, NO_VERSION | NO_PROFILE) | ((number == CLOCK) & is_last(slot, b.limit)))
}

// An end in the exchange, but for what it has collected.
#[derive(Clone, Copy)]
struct Exchanging {
    book: Book,
    slot: u16,
    version: u8,
    awaited: Awaited,
    sending: Sending,
}

impl Exchanging {
    // Whether bytes of the five parameters are left to send.
    fn parameters_left(self, i: u16) -> bool
        ensures { result ≡ ltb i (all_parameter_bytes self.book) }
    {
        i < all_parameter_bytes(self.book)
    }

    // What an answerer sends, by what it awaits.
    #[tactic(auto, unfolding(protocol::specs::Ranges::answering_in, protocol::specs::Lengths::identifier_run))]
    fn answering_in(self) -> bool
        ensures { result ≡ answering_in self.book self.awaited self.sending }
    {
        let a = self.awaited;
        match self.sending {
            Sending::Idle => !awaits_hail(a) & !has_all(a),
            Sending::Hail(n) => awaits_hail(a) & (n <= IDENTIFIER_RUN),
            Sending::Mask(i) => behind(i, a) & (i < GROUP_LENGTH),
            Sending::Parameters(i) => has_all(a) & (1 <= i) & self.parameters_left(i),
            Sending::Done => false,
        }
    }

    // What an originator sends, by what it awaits.
    #[tactic(auto, unfolding(protocol::specs::Ranges::originating_in, protocol::specs::Lengths::identifier_run))]
    fn originating_in(self) -> bool
        ensures { result ≡ originating_in self.book self.awaited self.sending }
    {
        let a = self.awaited;
        match self.sending {
            Sending::Idle => awaits_hail(a),
            Sending::Hail(n) => !awaits_hail(a) & (1 <= n) & (n <= IDENTIFIER_RUN),
            Sending::Mask(i) => has_identifier(a) & (1 <= i) & (i < GROUP_LENGTH),
            Sending::Parameters(i) => has_identifier(a) & self.parameters_left(i),
            Sending::Done => has_identifier(a) & !has_all(a),
        }
    }

    fn sending_in(self) -> bool
        ensures { result ≡ sending_in self.book self.awaited self.sending }
    {
        if originates(self.book) {
            return self.originating_in();
        }
        self.answering_in()
    }

    // An originator that shares no version has yet to send its mask of 00.
    fn may_lack(self) -> bool
        ensures { result ≡ may_lack self.book self.sending }
    {
        matches!(self.sending, Sending::Hail(_) | Sending::Mask(_)) & originates(self.book)
    }

    #[tactic(auto, unfolding(protocol::specs::Ranges::version_in))]
    fn version_in(self) -> bool
        ensures { result ≡ version_in self.book self.awaited self.sending self.version }
    {
        if has_identifier(self.awaited) {
            return is_version(self.book, self.version) | (self.may_lack() & (self.version == 0));
        }
        self.version == 0
    }

    fn is_in(self) -> bool
        ensures { result ≡ exchange_in self.book self.slot self.version self.awaited self.sending }
    {
        (self.slot < self.book.limit)
            & awaited_in(self.book, self.awaited)
            & self.sending_in()
            & self.version_in()
    }
}

// An open end: no form 8 entry on version 1.
fn open_in(b: Book, slot: u16, version: u8, entry: u8, line: Line) -> bool
    ensures { result ≡ open_in b slot version entry line }
{
    let e = entry_of(b, entry);
    let shape = shape_of(e, version);
    (slot < b.limit)
        & is_version(b, version)
        & (entry < b.n)
        & !left_out(version, e)
        & outbound_in(shape, line.outbound)
        & inbound_in(shape, line.inbound)
}

#[tactic(auto, unfolding(protocol::specs::Ranges::phase_in))]
pub fn phase_in(b: Book, nibbles: [u8; PLACES], values: [u8; PLACES], p: Phase) -> bool
    ensures { result ≡ phase_in b nibbles values p }
{
    match p {
        Phase::Exchanging {
            slot,
            version,
            awaited,
            sending,
        } => {
            let exchanging = Exchanging {
                book: b,
                slot,
                version,
                awaited,
                sending,
            };
            exchanging.is_in() & nibbles_in(awaited, nibbles) & values_in(awaited, values)
        }
        Phase::Open {
            slot,
            version,
            entry,
            line,
        } => open_in(b, slot, version, entry, line) & all_below(1, nibbles, 0),
        Phase::Refused { number, slot } => {
            refused_in(b, number, slot) & all_below(1, nibbles, 0)
        }
    }
}
