// The types of one end of a call. No code but the numbers of refusal: what a slot does is defined in specs/.
#![tactic(auto)]

ghost use Rattle.std.specs.Prelude.{◌≡◌};
ghost use Rattle.protocol.specs.Slot.{refusal_number};

use book::{Book, Entry, Fault};
use channel::byte::{ChannelByte, Leads};
use channel::unit::Form;

// Why a call is refused: the numbers that a refused end keeps.
pub const NO_VERSION: u8 = 21;

pub const NO_PROFILE: u8 = 22;

pub const CLOCK: u8 = 23;

// What is awaited in the exchange. Item 0 is the identifier, item k + 1 is parameter k: numbers, since 13 refuses a stored state with an
// item above 5.
#[derive(Clone, Copy, PartialEq, Eq, Debug)]
pub enum Awaited {
    // the run for an item, of which so many bytes have come
    Run { item: u8, count: u8 },
    // the group for an item, its run having come; so many bytes of it are in hand
    Group { item: u8, count: u8 },
    // nothing any more
    Nothing,
}

// What is sent in the exchange.
#[derive(Clone, Copy, PartialEq, Eq, Debug)]
pub enum Sending {
    // Sdidle
    Idle,
    // Sgvi; so many have gone, counted up to 16
    Hail(u8),
    // the identifier; so many of its 6 bytes have gone
    Mask(u8),
    // the five parameters; so many of their bytes have gone, of 190 in all
    Parameters(u16),
    // Sdidle, all parameters being sent
    Done,
}

// How the data of an open end is laid: words of so many bits, or units of one byte.
#[derive(Clone, Copy)]
pub enum Shape {
    Word(u8),
    Unit(Form),
}

// What an Sd carries.
#[derive(Clone, Copy)]
pub struct Signals {
    pub leads: Leads,
    pub bk: bool,
}

// Who has a claim on the line, after the first bytes, in forms 0 and 6.
#[derive(Clone, Copy)]
pub enum Claim {
    // nobody: leads that changed may claim it
    Free,
    // the second of two Sd, with the leads of the first
    Second(Leads),
    // one offered unit
    Owed,
}

// The sending half of an open end.
#[derive(Clone, Copy)]
pub struct Outbound {
    // how many of the first bytes have gone: 16 Sd, and in forms 7 and 8 the pair
    pub opening: u8,
    // the high nibble whose DH is due, in form 0
    pub due: Option<u8>,
    pub claim: Claim,
    // the last Sd sent, and the one before it
    pub last: Signals,
    pub before: Signals,
}

// The receiving half of an open end.
#[derive(Clone, Copy)]
pub struct Inbound {
    // the low nibble whose DL has just come, in form 0
    pub half: Option<u8>,
    // how much of the pair 05 0D has come, in forms 7 and 8: a number, since 13 refuses a stored state with more than 2
    pub pair: u8,
    // the last Sd received, and the signals as they stand
    pub last: Signals,
    pub standing: Signals,
}

// An open end.
#[derive(Clone, Copy)]
pub struct Line {
    pub outbound: Outbound,
    pub inbound: Inbound,
}

// One phase at a time. The slot of the exchange is the number of slots since the start; of an open or refused end, the slot in
// which it opened or refused. What an open end has stands in fields, which the definitions and `StaysConcluded` take one by one.
#[derive(Clone, Copy)]
pub enum Phase {
    Exchanging {
        slot: u16,
        // 0 for none, not an option: the definition `highest` gives it so, and 13 refuses a stored number that its phase can't have; an
        // option would have Some(0) besides
        version: u8,
        awaited: Awaited,
        sending: Sending,
    },
    Open {
        slot: u16,
        version: u8,
        // a place among the entries, since 13 refuses a stored state with one past them
        entry: u8,
        line: Line,
    },
    Refused {
        // a number, not an enum: a stored state may hold any, and 13 refuses all but NO_VERSION, NO_PROFILE and CLOCK
        number: u8,
        slot: u16,
    },
}

// One end of a call.
#[derive(Clone, Copy)]
pub struct Endpoint {
    pub book: Book,
    // the nibbles of the group in hand, zeros past them: an array, as document 01 has it, of which the phase says how many
    pub nibbles: [u8; 6],
    // the values voted so far, the identifier and p0 to p4, zeros past them
    pub values: [u8; 6],
    pub phase: Phase,
}

// What has come in the exchange; the arrays are those of the endpoint.
#[derive(Clone, Copy)]
pub struct Hearing {
    pub awaited: Awaited,
    pub nibbles: [u8; 6],
    pub values: [u8; 6],
}

// The state of the exchange but for its clock. The version is 0 until it is settled, and where none is shared, as the phase keeps it.
#[derive(Clone, Copy)]
pub struct Exchange {
    pub hearing: Hearing,
    pub version: u8,
    pub sending: Sending,
}

// What becomes of the exchange in a slot.
#[derive(Clone, Copy, PartialEq, Eq, Debug)]
pub enum Fate {
    Stays,
    // opened by the received byte, or by the own last byte, on an entry, by its place as the phase keeps it
    OpensHearing(u8),
    OpensSending(u8),
    // under the number that the phase keeps: an enum would be turned into it at once
    Refuses(u8),
}

// What a slot is given besides the received byte.
#[derive(Clone, Copy)]
pub struct Drive {
    pub leads: Leads,
    pub flag: bool,
    // the unit offered
    pub offer: Option<u8>,
}

// Where an end stands. Its profile is the entry that it opened on; its signals are the leads and BK received, as they stand.
#[derive(Clone, Copy)]
pub enum Outcome {
    Exchanging,
    Open {
        version: u8,
        profile: Entry,
        slot: u16,
        signals: Signals,
    },
    Refused {
        // a number, not an enum: that of a stored state is told as it stands
        number: u8,
        slot: u16,
    },
}

// What a slot that has passed brings.
#[derive(Clone, Copy)]
pub struct Passed {
    pub sent: ChannelByte,
    // the unit delivered
    pub delivered: Option<u8>,
    pub taken: bool,
    pub outcome: Outcome,
}

// Why a slot is refused, and has not passed.
#[derive(Clone, Copy, PartialEq, Eq, Debug)]
pub enum SlotRefusal {
    // an offered unit is out of range
    UnitOutOfRange,
    // the state is outside its ranges
    OutsideRanges,
}

impl SlotRefusal {
    // The number of refusal.
    pub fn number(self) -> u8
        ensures { result ≡ refusal_number self }
    {
        match self {
            SlotRefusal::UnitOutOfRange => 12,
            SlotRefusal::OutsideRanges => 13,
        }
    }
}

pub type Reply = Result<Passed, SlotRefusal>;

// A refused slot gives the state back as well, so it stands beside the reply.
#[derive(Clone, Copy)]
pub struct SlotAnswer {
    pub state: Endpoint,
    pub reply: Reply,
}

// What a lent book starts: the verdict, and the end before slot 0; beside a refusal, the end of a book of zeros: a struct,
// since theorem no_call speaks of that end.
#[derive(Clone, Copy)]
pub struct Start {
    pub verdict: Result<(), Fault>,
    pub state: Endpoint,
}
