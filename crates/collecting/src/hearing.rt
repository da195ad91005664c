// Collecting: what is awaited, and what a received byte does to it.
ghost use Rattle.std.specs.Prelude.{◌≡◌, cond, ◌+◌, ◌*◌, ◌%◌, ◌<◌, ltb};
ghost use Rattle.protocol.specs.Lengths.{run_length};
ghost use Rattle.protocol.specs.Collecting.{of_run, dl_due, dh_due, last_due, value_of, awaiting, dropped, begun, grown, next_after, completed, in_run, in_group, hear, item_of, awaits_hail, has_identifier, has_all};
ghost use Rattle.collecting.specs.DueNibble.{due_nibble, dropped_by};

use crate::lengths::run_length;
use book::Book;
use channel::kind::Kind;
use channel::vote::vote;
use protocol::{Awaited, Hearing};

// No group is in hand.
pub const NO_NIBBLES: [u8; 6] = [0; 6];

// A byte of the run for an item: Sgvi for the identifier, Sgpk for parameter k.
#[tactic(auto, unfolding(protocol::specs::Collecting::of_run))]
fn of_run(item: u8, k: Kind) -> bool
    ensures { result ≡ of_run item k }
{
    match k {
        Kind::Sgvi => item == 0,
        Kind::Sgp(parameter) => u16::from(item) == u16::from(parameter) + 1,
        _ => false,
    }
}

// The next one due in a group of which so many bytes are in hand.
fn dl_due(count: u8) -> bool
    ensures { result ≡ dl_due count }
{
    matches!(count, 0 | 2 | 4)
}

fn dh_due(count: u8) -> bool
    ensures { result ≡ dh_due count }
{
    matches!(count, 1 | 3)
}

// The sixth byte completes the group.
fn last_due(count: u8) -> bool
    ensures { result ≡ last_due count }
{
    count == 5
}

// One of the three copies, as a byte.
fn copy_of(low: u8, high: u8) -> u8
    ensures { result ≡ (low + 16 * high) % 256 }
{
    high.wrapping_mul(16).wrapping_add(low)
}

// The value is the majority of the three copies bit by bit.
#[tactic(auto, using(crate::proofs::EightBits::eight_bits), unfolding(protocol::specs::Collecting::value_of))]
fn value_of(nibbles: [u8; 6]) -> u8
    ensures { result ≡ value_of nibbles }
{
    vote(
        copy_of(nibbles[0], nibbles[1]),
        copy_of(nibbles[2], nibbles[3]),
        copy_of(nibbles[4], nibbles[5]),
    )
}

fn awaiting(h: Hearing, awaited: Awaited, nibbles: [u8; 6]) -> Hearing
    ensures { result ≡ awaiting h awaited nibbles }
{
    // by a variable: straight from field to field the check does not cover an array
    let values = h.values;
    Hearing {
        awaited,
        nibbles,
        values,
    }
}

// Only one thing is awaited at a time: the identifier, then p0 to p4, then nothing.
fn next_after(item: u8) -> Awaited
    ensures { result ≡ next_after item }
{
    if item < 5 {
        Awaited::Run {
            item: item + 1,
            count: 0,
        }
    } else {
        Awaited::Nothing
    }
}

// The run counts; once it has come it need not come again.
fn run_after(b: Book, item: u8, count: u8, k: Kind) -> Awaited
    ensures { result ≡ cond (of_run item k) (cond (ltb (count + 1) (run_length b item)) (Awaited.Run item (count + 1)) (Awaited.Group item 0)) (Awaited.Run item 0) }
{
    if of_run(item, k) {
        if u16::from(count) + 1 < u16::from(run_length(b, item)) {
            Awaited::Run {
                item,
                count: count + 1,
            }
        } else {
            Awaited::Group { item, count: 0 }
        }
    } else {
        Awaited::Run { item, count: 0 }
    }
}

#[tactic(auto, unfolding(protocol::specs::Collecting::in_run))]
fn in_run(b: Book, h: Hearing, item: u8, count: u8, k: Kind) -> Hearing
    ensures { result ≡ in_run b h item count k }
{
    awaiting(h, run_after(b, item, count, k), NO_NIBBLES)
}

// The group for an item, of which so many bytes are in hand.
#[derive(Clone, Copy)]
struct Group {
    hearing: Hearing,
    item: u8,
    count: u8,
}

impl Group {
    // The group goes on from so many bytes in hand.
    fn with(self, count: u8, nibbles: [u8; 6]) -> Hearing
        ensures { result ≡ awaiting self.hearing (Awaited.Group self.item count) nibbles }
    {
        let item = self.item;
        awaiting(self.hearing, Awaited::Group { item, count }, nibbles)
    }

    fn dropped(self) -> Hearing
        ensures { result ≡ dropped self.hearing self.item }
    {
        self.with(0, NO_NIBBLES)
    }

    // A DL that drops a group begins another.
    fn begun(self, x: u8) -> Hearing
        ensures { result ≡ begun self.hearing self.item x }
    {
        self.with(1, [x, 0, 0, 0, 0, 0])
    }

    fn grown(self, x: u8) -> Hearing
        requires { self.count < 6 }
        ensures { result ≡ grown self.hearing self.item self.count x }
    {
        let hearing = self.hearing;
        let mut nibbles = hearing.nibbles;
        nibbles[usize::from(self.count)] = x;
        self.with(self.count + 1, nibbles)
    }

    #[tactic(auto, using(ground::proofs::PastEnd::written_past))]
    fn completed(self, x: u8) -> Hearing
        ensures { result ≡ completed self.hearing self.item x }
    {
        let hearing = self.hearing;
        let mut nibbles = hearing.nibbles;
        let mut values = hearing.values;
        nibbles[5] = x;
        let value = value_of(nibbles);
        let at = usize::from(self.item);
        if at < 6 {
            values[at] = value;
        }
        Hearing {
            awaited: next_after(self.item),
            nibbles: NO_NIBBLES,
            values,
        }
    }

    // The nibble of the next one due, a DL or a DH; none in a byte of any other kind.
    #[tactic(auto, unfolding(crate::specs::DueNibble::due_nibble))]
    fn due_nibble(self, k: Kind) -> Option<u8>
        ensures { result ≡ due_nibble self.count k }
    {
        let count = self.count;
        match k {
            Kind::Dl(x) => dl_due(count).then_some(x),
            Kind::Dh(x) => (dh_due(count) | last_due(count)).then_some(x),
            _ => None,
        }
    }

    // A byte that drops a group leaves nothing in hand, but a DL begins another.
    #[tactic(auto, unfolding(crate::specs::DueNibble::dropped_by))]
    fn dropped_by(self, k: Kind) -> Hearing
        ensures { result ≡ dropped_by self.hearing self.item k }
    {
        if let Kind::Dl(x) = k {
            self.begun(x)
        } else {
            self.dropped()
        }
    }

    // A byte of any other kind than the next one due drops the group.
    #[tactic(auto, unfolding(protocol::specs::Collecting::in_group, crate::specs::DueNibble::due_nibble, crate::specs::DueNibble::dropped_by))]
    fn hears(self, k: Kind) -> Hearing
        ensures { result ≡ in_group self.hearing self.item self.count k }
    {
        if let Some(x) = self.due_nibble(k) {
            if last_due(self.count) {
                self.completed(x)
            } else {
                self.grown(x)
            }
        } else {
            self.dropped_by(k)
        }
    }
}

#[tactic(auto, unfolding(protocol::specs::Collecting::hear_at))]
pub fn hear(b: Book, h: Hearing, k: Kind) -> Hearing
    ensures { result ≡ hear b h k }
{
    match h.awaited {
        Awaited::Run { item, count } => in_run(b, h, item, count, k),
        Awaited::Group { item, count } => {
            let group = Group {
                hearing: h,
                item,
                count,
            };
            group.hears(k)
        }
        Awaited::Nothing => h,
    }
}

// Which item is awaited; 6 for nothing, so that what has come is told by one comparison.
pub fn item_of(a: Awaited) -> u8
    ensures { result ≡ item_of a }
{
    match a {
        Awaited::Run { item, .. } | Awaited::Group { item, .. } => item,
        Awaited::Nothing => 6,
    }
}

// The run of 16 Sgvi is awaited.
pub fn awaits_hail(a: Awaited) -> bool
    ensures { result ≡ awaits_hail a }
{
    matches!(a, Awaited::Run { item: 0, .. })
}

// The identifier has been voted.
pub fn has_identifier(a: Awaited) -> bool
    ensures { result ≡ has_identifier a }
{
    0 < item_of(a)
}

// All has come.
pub fn has_all(a: Awaited) -> bool
    ensures { result ≡ has_all a }
{
    5 < item_of(a)
}
