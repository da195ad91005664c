// What an open end reads and delivers.
#![tactic(auto)]

ghost use Rattle.std.specs.Prelude.{◌≡◌, cond, ◌&&◌, eqb};
ghost use Rattle.channel.specs.Kinds.{kind_of};
ghost use Rattle.protocol.specs.Opened.{agreed, agreed_signals, reads, reads_sd, quiet, word_with, reads_word, reads_idle, reads_six, reads_pair, reads_stream, reads_form, reading};
ghost use Rattle.protocol.specs.Answers.{says_delivered, delivers_of};
ghost use Rattle.reading.specs.Made.{reading_made};

use channel::byte::{ChannelByte, Leads};
use channel::kind::Kind;
use channel::unit;
use channel::unit::Form;
use opened::line::inbound_of;
use opened::shape::pair_form;
use protocol::{Inbound, Shape, Signals};

// What a received byte makes of the receiving half, and what it delivers.
#[derive(Clone, Copy)]
pub struct ReadingMade {
    pub inbound: Inbound,
    pub delivered: Option<u8>,
}

// The receiving half of an open end, and the byte received.
#[derive(Clone, Copy)]
struct Receiver {
    inbound: Inbound,
    heard: ChannelByte,
}

// A lead, or BK, takes a new value when the last two Sd received agree on it.
fn agreed(last: bool, now: bool, standing: bool) -> bool
    ensures { result ≡ agreed last now standing }
{
    if last == now { now } else { standing }
}

#[tactic(auto, unfolding(protocol::specs::Opened::agreed_signals))]
fn agreed_signals(last: Signals, now: Signals, standing: Signals) -> Signals
    ensures { result ≡ agreed_signals last now standing }
{
    let leads = Leads {
        s0: agreed(last.leads.s0, now.leads.s0, standing.leads.s0),
        s1: agreed(last.leads.s1, now.leads.s1, standing.leads.s1),
        s2: agreed(last.leads.s2, now.leads.s2, standing.leads.s2),
        s3: agreed(last.leads.s3, now.leads.s3, standing.leads.s3),
    };
    let bk = agreed(last.bk, now.bk, standing.bk);
    Signals { leads, bk }
}

// A DL then at once a DH delivers a word.
fn word_with(w: u8, half: Option<u8>, high: u8) -> Option<u8>
    ensures { result ≡ word_with w half high }
{
    half.map(|low| unit::word_of(w, low, high))
}

// How much of the pair has come with its first byte, and with its second: both carry no bit.
fn pair_begun(x: u8) -> u8
    ensures { result ≡ cond (eqb x 0) 1 0 }
{
    u8::from(x == 0)
}

fn pair_ended(x: u8, pair: u8) -> u8
    ensures { result ≡ cond (eqb x 0 && eqb pair 1) 2 0 }
{
    if x == 0 && pair == 1 { 2 } else { 0 }
}

impl Receiver {
    // A byte that is no Sd leaves the signals as they stand.
    fn reads(self, half: Option<u8>, pair: u8, delivered: Option<u8>) -> ReadingMade
        ensures { result ≡ reading_made (reads self.inbound half pair delivered) }
    {
        let inbound = Inbound {
            half,
            pair,
            ..self.inbound
        };
        ReadingMade { inbound, delivered }
    }

    // An Sd drops the half, and the first byte of a pair.
    fn reads_sd(self, leads: Leads, bk: bool) -> ReadingMade
        ensures { result ≡ reading_made (reads_sd self.inbound leads bk) }
    {
        let now = Signals { leads, bk };
        let agreed = agreed_signals(self.inbound.last, now, self.inbound.standing);
        ReadingMade {
            inbound: inbound_of(None, 0, now, agreed),
            delivered: None,
        }
    }

    // A byte that delivers nothing, with so much of the pair come.
    fn seeks(self, pair: u8) -> ReadingMade
        ensures { result ≡ reading_made (reads self.inbound None pair None) }
    {
        self.reads(None, pair, None)
    }

    // A byte that drops the half, and the first byte of a pair.
    fn quiet(self) -> ReadingMade
        ensures { result ≡ reading_made (quiet self.inbound) }
    {
        self.seeks(0)
    }

    // A byte that carries a unit.
    fn delivers(self, pair: u8, u: u8) -> ReadingMade
        ensures { result ≡ reading_made (reads self.inbound None pair (Some u)) }
    {
        self.reads(None, pair, Some(u))
    }

    // Form 0: while BK stands on, data is ignored; anything else drops the half.
    #[tactic(auto, unfolding(protocol::specs::Opened::reads_word))]
    fn reads_word(self, w: u8) -> ReadingMade
        ensures { result ≡ reading_made (reads_word w self.inbound (kind_of self.heard.0)) }
    {
        match self.heard.kind() {
            Kind::Sd(leads, bk) => self.reads_sd(leads, bk),
            _ if self.inbound.standing.bk => self.quiet(),
            Kind::Dl(x) => self.reads(Some(x), 0, None),
            Kind::Dh(x) => self.reads(None, 0, word_with(w, self.inbound.half, x)),
            _ => self.quiet(),
        }
    }

    // Form 6, a byte with B7 1: it may be an Sd.
    fn reads_idle(self) -> ReadingMade
        ensures { result ≡ reading_made (reads_idle self.inbound (kind_of self.heard.0)) }
    {
        match self.heard.kind() {
            Kind::Sd(leads, bk) => self.reads_sd(leads, bk),
            _ => self.quiet(),
        }
    }

    #[tactic(auto, unfolding(protocol::specs::Opened::reads_six))]
    fn reads_six(self) -> ReadingMade
        ensures { result ≡ reading_made (reads_six self.inbound self.heard.0) }
    {
        if unit::is_data(Form::Six, self.heard) {
            self.delivers(0, unit::unit_in(Form::Six, self.heard))
        } else {
            self.reads_idle()
        }
    }

    // Forms 7 and 8 before the pair: a DL and at once a DH, both with no bit on, are the pair.
    fn reads_pair(self) -> ReadingMade
        ensures { result ≡ reading_made (reads_pair self.inbound (kind_of self.heard.0)) }
    {
        match self.heard.kind() {
            Kind::Dl(x) => self.seeks(pair_begun(x)),
            Kind::Dh(x) => self.seeks(pair_ended(x, self.inbound.pair)),
            Kind::Sd(leads, bk) => self.reads_sd(leads, bk),
            _ => self.quiet(),
        }
    }

    // Forms 7 and 8 deliver every byte after the first received pair.
    #[tactic(auto, unfolding(protocol::specs::Opened::reads_stream))]
    fn reads_stream(self, f: Form) -> ReadingMade
        ensures { result ≡ reading_made (reads_stream f self.inbound self.heard.0) }
    {
        if self.inbound.pair == 2 {
            self.delivers(2, unit::unit_in(f, self.heard))
        } else {
            self.reads_pair()
        }
    }

    fn reads_form(self, f: Form) -> ReadingMade
        ensures { result ≡ reading_made (reads_form f self.inbound self.heard.0) }
    {
        if pair_form(f) {
            self.reads_stream(f)
        } else {
            self.reads_six()
        }
    }
}

#[tactic(auto, using(crate::proofs::InNumbers::says_delivers), unfolding(protocol::specs::Opened::reading))]
pub fn reading(s: Shape, i: Inbound, heard: ChannelByte) -> ReadingMade
    ensures value { result ≡ reading_made (reading s i heard.0) }
    ensures says { says_delivered result.delivered ≡ delivers_of s i heard.0 }
{
    let receiver = Receiver { inbound: i, heard };
    match s {
        Shape::Word(w) => receiver.reads_word(w),
        Shape::Unit(f) => receiver.reads_form(f),
    }
}
