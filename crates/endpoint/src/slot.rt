// One slot of one end, and where the end stands.
ghost use Rattle.std.specs.Prelude.{◌≡◌};
ghost use Rattle.protocol.specs.Ranges.{well_formed};
ghost use Rattle.protocol.specs.Slot.{exchange_of, started, clocked, opens_hearing, exchange_step, open_at, open_step, step_of, offer_allowed, outcome_of, refuses, slot_of};
ghost use Rattle.protocol.specs.Answers.{says_outcome, stands_in, says_reply, slot_says};
ghost use Rattle.protocol.specs.declared.Phase.TheVariants.{Open, Refused};
ghost use Rattle.endpoint.specs.StepMade.{rest_of, with_book, exchanging_rest, concluded_rest, step_made, quiet_step, passed_by};

use book::{Book, book_ok};
use channel::byte::ChannelByte;
use collecting::hearing::NO_NIBBLES;
use collecting::kept_book::entry_of;
use exchange::turn::{first_exchange, turn};
use opened::line::fresh_line;
use opened::shape::{has_unit, shape_of};
use protocol::{
    Awaited, CLOCK, Drive, Endpoint, Exchange, Fate, Hearing, Line, Outcome, Passed, Phase,
    Sending, SlotAnswer, SlotRefusal,
};
use ranges::phase_in;
use reading::reading;
use writing::{first_written, writing};

// What a slot makes of an end: all but its book, which no slot changes. Its arrays are the endpoint's. They go from one struct to
// another by a variable, here and below: straight from field to field the check does not cover an array.
#[derive(Clone, Copy)]
pub(crate) struct Rest {
    pub(crate) nibbles: [u8; 6],
    pub(crate) values: [u8; 6],
    pub(crate) phase: Phase,
}

impl From<Endpoint> for Rest {
    ghost from_gives = { λ e rest. rest ≡ rest_of e };

    fn from(e: Endpoint) -> Rest {
        let nibbles = e.nibbles;
        let values = e.values;
        Rest {
            nibbles,
            values,
            phase: e.phase,
        }
    }
}

impl Rest {
    fn with_book(self, book: Book) -> Endpoint
        ensures { result ≡ with_book book self }
    {
        let nibbles = self.nibbles;
        let values = self.values;
        Endpoint {
            book,
            nibbles,
            values,
            phase: self.phase,
        }
    }

    fn exchanging(slot: u16, x: Exchange) -> Rest
        ensures { result ≡ exchanging_rest slot x }
    {
        let hearing = x.hearing;
        let nibbles = hearing.nibbles;
        let values = hearing.values;
        let phase = Phase::Exchanging {
            slot,
            version: x.version,
            awaited: hearing.awaited,
            sending: x.sending,
        };
        Rest {
            nibbles,
            values,
            phase,
        }
    }

    // An end that has concluded keeps the values that were voted.
    fn concluded(x: Exchange, phase: Phase) -> Rest
        ensures { result ≡ concluded_rest x phase }
    {
        let hearing = x.hearing;
        let values = hearing.values;
        Rest {
            nibbles: NO_NIBBLES,
            values,
            phase,
        }
    }
}

// What a slot brings: the end but for its book, the byte sent, what is delivered, and whether the offered unit is taken.
#[derive(Clone, Copy)]
pub(crate) struct StepMade {
    pub(crate) rest: Rest,
    pub(crate) sent: ChannelByte,
    pub(crate) delivered: Option<u8>,
    pub(crate) taken: bool,
}

impl StepMade {
    // Nothing is delivered or taken.
    fn quiet(rest: Rest, sent: ChannelByte) -> StepMade
        ensures { result ≡ quiet_step rest sent }
    {
        StepMade {
            rest,
            sent,
            delivered: None,
            taken: false,
        }
    }
}

// An end in the exchange, in a slot. What is heard and given stay two parameters, here and below, as the public `slot` takes them: a struct
// would be made once and taken apart at the next call.
#[derive(Clone, Copy)]
pub(crate) struct Calling {
    pub(crate) book: Book,
    pub(crate) slot: u16,
    pub(crate) exchange: Exchange,
}

impl Calling {
    // An end neither open nor refused after acting and sending in slot L-1 refuses 23.
    #[tactic(auto, unfolding(protocol::specs::Slot::clocked))]
    fn clocked(self) -> Rest
        ensures { result ≡ rest_of (clocked self.book self.slot self.exchange) }
    {
        if u32::from(self.slot) + 1 < u32::from(self.book.limit) {
            return Rest::exchanging(self.slot + 1, self.exchange);
        }
        self.refuses(CLOCK)
    }

    // Under the number that the phase keeps.
    fn refuses(self, number: u8) -> Rest
        ensures { result ≡ concluded_rest self.exchange (Refused number self.slot) }
    {
        let slot = self.slot;
        Rest::concluded(self.exchange, Phase::Refused { number, slot })
    }

    fn opens(self, entry: u8, line: Line) -> Rest
        ensures { result ≡ concluded_rest self.exchange (Open self.slot self.exchange.version entry line) }
    {
        let phase = Phase::Open {
            slot: self.slot,
            version: self.exchange.version,
            entry,
            line,
        };
        Rest::concluded(self.exchange, phase)
    }

    // Opened by a received byte, an end sends as an open end in that slot already.
    fn opens_hearing(self, entry: u8, g: Drive) -> StepMade
        ensures { result ≡ step_made (opens_hearing self.book self.slot self.exchange entry g) }
    {
        let shape = shape_of(entry_of(self.book, entry), self.exchange.version);
        let w = first_written(shape, g);
        let line = Line {
            outbound: w.outbound,
            inbound: fresh_line().inbound,
        };
        StepMade::quiet(self.opens(entry, line), w.sent)
    }

    fn step(self, heard: ChannelByte, g: Drive) -> StepMade
        ensures { result ≡ step_made (exchange_step self.book self.slot self.exchange heard.0 g) }
    {
        let t = turn(self.book, self.exchange, heard.kind());
        let after = Calling {
            exchange: t.exchange,
            ..self
        };
        match t.fate {
            Fate::Stays => StepMade::quiet(after.clocked(), t.sent),
            Fate::OpensHearing(i) => after.opens_hearing(i, g),
            Fate::OpensSending(i) => StepMade::quiet(after.opens(i, fresh_line()), t.sent),
            Fate::Refuses(number) => StepMade::quiet(after.refuses(number), t.sent),
        }
    }
}

// An open end: the slot in which it opened, the version, its entry and its line, as its phase has them.
#[derive(Clone, Copy)]
pub(crate) struct OpenEnd {
    pub(crate) end: Endpoint,
    pub(crate) slot: u16,
    pub(crate) version: u8,
    pub(crate) entry: u8,
    pub(crate) line: Line,
}

impl OpenEnd {
    fn with_line(self, line: Line) -> Rest
        ensures { result ≡ rest_of (open_at self.end self.slot self.version self.entry line) }
    {
        let end = self.end;
        let nibbles = end.nibbles;
        let values = end.values;
        let phase = Phase::Open {
            slot: self.slot,
            version: self.version,
            entry: self.entry,
            line,
        };
        Rest {
            nibbles,
            values,
            phase,
        }
    }

    // The byte acts, then the byte to send is chosen.
    #[tactic(auto, unfolding(protocol::specs::Slot::open_step))]
    fn step(self, heard: ChannelByte, g: Drive) -> StepMade
        ensures { result ≡ step_made (open_step self.end self.slot self.version self.entry self.line heard.0 g) }
    {
        let shape = shape_of(entry_of(self.end.book, self.entry), self.version);
        let r = reading(shape, self.line.inbound, heard);
        let w = writing(shape, self.line.outbound, g);
        let line = Line {
            outbound: w.outbound,
            inbound: r.inbound,
        };
        StepMade {
            rest: self.with_line(line),
            sent: w.sent,
            delivered: r.delivered,
            taken: w.taken,
        }
    }
}

// An end in the exchange, with its state but for the clock.
fn exchange_of(e: Endpoint, version: u8, awaited: Awaited, sending: Sending) -> Exchange
    ensures { result ≡ exchange_of e version awaited sending }
{
    let nibbles = e.nibbles;
    let values = e.values;
    let hearing = Hearing {
        awaited,
        nibbles,
        values,
    };
    Exchange {
        hearing,
        version,
        sending,
    }
}

// Slots count from 0.
#[tactic(auto, unfolding(protocol::specs::Slot::started))]
pub(crate) fn started(b: Book) -> Endpoint
    ensures { result ≡ started b }
{
    Rest::exchanging(0, first_exchange(b)).with_book(b)
}

// Refused ends send Sdidle for ever and ignore what comes.
#[tactic(auto, unfolding(protocol::specs::Slot::step_at, protocol::specs::Sent::byte_sent))]
fn step(e: Endpoint, heard: ChannelByte, g: Drive) -> StepMade
    ensures { result ≡ step_made (step_of e heard.0 g) }
{
    match e.phase {
        Phase::Exchanging {
            slot,
            version,
            awaited,
            sending,
        } => {
            let calling = Calling {
                book: e.book,
                slot,
                exchange: exchange_of(e, version, awaited, sending),
            };
            calling.step(heard, g)
        }
        Phase::Open {
            slot,
            version,
            entry,
            line,
        } => {
            let open = OpenEnd {
                end: e,
                slot,
                version,
                entry,
                line,
            };
            open.step(heard, g)
        }
        Phase::Refused { .. } => StepMade::quiet(Rest::from(e), ChannelByte::SDIDLE),
    }
}

// 12: a unit out of range is offered to an end open before the slot; an end not open ignores the offer.
#[tactic(auto, unfolding(protocol::specs::Slot::offer_allowed))]
fn offer_allowed(e: Endpoint, g: Drive) -> bool
    ensures { result ≡ offer_allowed e g e.phase }
{
    match (e.phase, g.offer) {
        (Phase::Open { version, entry, .. }, Some(u)) => {
            has_unit(shape_of(entry_of(e.book, entry), version), u)
        }
        _ => true,
    }
}

// Where an end stands.
#[tactic(auto, unfolding(protocol::specs::Slot::outcome_at, protocol::specs::Answers::stands_in))]
pub fn outcome(e: Endpoint) -> Outcome
    ensures value { result ≡ outcome_of e }
    ensures says { says_outcome result ≡ stands_in e e.phase }
{
    match e.phase {
        Phase::Exchanging { .. } => Outcome::Exchanging,
        Phase::Open {
            slot,
            version,
            entry,
            line,
        } => Outcome::Open {
            version,
            profile: entry_of(e.book, entry),
            slot,
            signals: line.inbound.standing,
        },
        Phase::Refused { number, slot } => Outcome::Refused { number, slot },
    }
}

// The kept book passes its check, and the rest is in its range.
#[tactic(auto, unfolding(protocol::specs::Ranges::well_formed))]
pub fn well_formed(e: Endpoint) -> bool
    ensures { result ≡ well_formed e }
{
    book_ok(e.book) & phase_in(e.book, e.nibbles, e.values, e.phase)
}

// The end that comes out of a slot has the book that went in.
fn passed(e: Endpoint, s: StepMade) -> SlotAnswer
    ensures { result ≡ passed_by e.book s }
{
    let state = s.rest.with_book(e.book);
    let passed = Passed {
        sent: s.sent,
        delivered: s.delivered,
        taken: s.taken,
        outcome: outcome(state),
    };
    SlotAnswer {
        state,
        reply: Ok(passed),
    }
}

// A refused slot gives back the state as it came.
fn refused(e: Endpoint, refusal: SlotRefusal) -> SlotAnswer
    ensures { result ≡ refuses e refusal }
{
    SlotAnswer {
        state: e,
        reply: Err(refusal),
    }
}

// One slot: 13 first, then 12, then the slot itself.
pub fn slot(e: Endpoint, heard: ChannelByte, g: Drive) -> SlotAnswer
    ensures value { result ≡ slot_of e heard.0 g }
    ensures says { says_reply result.reply ≡ slot_says e heard.0 g }
{
    if well_formed(e) {
        if offer_allowed(e, g) {
            return passed(e, step(e, heard, g));
        }
        return refused(e, SlotRefusal::UnitOutOfRange);
    }
    refused(e, SlotRefusal::OutsideRanges)
}
