// What an open end takes and sends.
#![tactic(auto)]

ghost use Rattle.std.specs.Prelude.{◌≡◌, cond, ◌-◌, ◌*◌, eqb, None, Some};
ghost use Rattle.channel.specs.Bytes.{byte, dh_byte};
ghost use Rattle.channel.specs.Forms.{units_of};
ghost use Rattle.protocol.specs.Opened.{opening_sd, bk_sent, writes_sd, writes_given, writes_offer, changed, writes_claim, held, writes_data, writing, fresh_line};
ghost use Rattle.writing.specs.Made.{writing_made, sending_byte};

use channel::byte::{ChannelByte, Leads};
use channel::unit;
use channel::unit::Form;
use opened::line::{fresh_line, outbound_of};
use opened::shape::{OPENING_SD, is_word, opening_bytes, pair_form};
use protocol::{Claim, Drive, Outbound, Shape, Signals};

// What becomes of the sending half, the byte sent, and whether the offered unit is taken.
#[derive(Clone, Copy)]
pub struct WritingMade {
    pub outbound: Outbound,
    pub sent: ChannelByte,
    pub taken: bool,
}

// How an end lays its data, its sending half, and what the slot is given.
#[derive(Clone, Copy)]
struct Sender {
    shape: Shape,
    half: Outbound,
    given: Drive,
}

// The pair 05 0D.
fn pair_byte(opening: u8) -> ChannelByte
    ensures { result ≡ byte (cond (eqb opening opening_sd) 0x05 0x0D) }
{
    if opening == OPENING_SD {
        ChannelByte(0x05)
    } else {
        ChannelByte(0x0D)
    }
}

// The unit of all ones.
fn all_ones(f: Form) -> u8
    ensures { result ≡ units_of f - 1 }
{
    match f {
        Form::Six => 63,
        Form::SevenV1 | Form::SevenV2 => 127,
        Form::Eight => 255,
    }
}

// The DH of a high nibble.
#[tactic(auto, using(crate::proofs::DhOfNibble::dh_of_nibble))]
fn dh_due(high: u8) -> ChannelByte
    ensures { result ≡ byte (dh_byte (16 * high)) }
{
    ChannelByte::dh(high % 16 * 16)
}

impl Sender {
    // BK is the break flag in form 0, else 0.
    fn bk_sent(self) -> bool
        ensures { result ≡ bk_sent self.shape self.given }
    {
        is_word(self.shape) && self.given.flag
    }

    // An Sd with certain leads: of the last two Sd sent it is the last from now on.
    #[tactic(auto, unfolding(protocol::specs::Sent::byte_sent))]
    fn writes_sd(self, opening: u8, claim: Claim, leads: Leads) -> WritingMade
        ensures { result ≡ writing_made (writes_sd self.shape self.half opening claim leads self.given) }
    {
        let bk = self.bk_sent();
        let now = Signals { leads, bk };
        WritingMade {
            outbound: outbound_of(opening, None, claim, now, self.half.last),
            sent: ChannelByte::sd(leads, bk),
            taken: false,
        }
    }

    // A byte that is no Sd leaves the last two Sd as they are, and nobody with a claim on the line.
    fn writes(self, opening: u8, due: Option<u8>, sent: ChannelByte, taken: bool) -> WritingMade
        ensures { result ≡ sending_byte self.half opening due sent taken }
    {
        let claim = Claim::Free;
        WritingMade {
            outbound: Outbound {
                opening,
                due,
                claim,
                ..self.half
            },
            sent,
            taken,
        }
    }

    // After the first bytes, a byte that leaves no DH due.
    fn sends(self, sent: ChannelByte, taken: bool) -> WritingMade
        ensures { result ≡ sending_byte self.half self.half.opening None sent taken }
    {
        self.writes(self.half.opening, None, sent, taken)
    }

    // 6: an Sd with the leads given; who has a claim on the line keeps it.
    fn writes_given(self) -> WritingMade
        ensures { result ≡ writing_made (writes_given self.shape self.half self.given) }
    {
        self.writes_sd(self.half.opening, self.half.claim, self.given.leads)
    }

    // 5: an offered unit is taken, and none is owed the line any more; in form 0 its DH is due then.
    #[tactic(auto, unfolding(protocol::specs::Sent::byte_sent))]
    fn takes(self, u: u8) -> WritingMade
        ensures { result ≡ writing_made (writes_offer self.shape self.half self.given (Some u)) }
    {
        match self.shape {
            Shape::Word(_) => {
                self.writes(self.half.opening, Some(u / 16), ChannelByte::dl(u), true)
            },
            Shape::Unit(f) => self.sends(unit::unit_byte(f, u), true),
        }
    }

    // With none taken forms 0 and 6 send Sd, forms 7 and 8 the unit of all ones.
    #[tactic(auto, unfolding(protocol::specs::Sent::byte_sent))]
    fn fills(self) -> WritingMade
        ensures { result ≡ writing_made (writes_offer self.shape self.half self.given None) }
    {
        match self.shape {
            Shape::Unit(f) if pair_form(f) => self.sends(unit::unit_byte(f, all_ones(f)), false),
            _ => self.writes_given(),
        }
    }

    // 5 and 6, in every form.
    fn writes_offer(self) -> WritingMade
        ensures { result ≡ writing_made (writes_offer self.shape self.half self.given self.given.offer) }
    {
        match self.given.offer {
            Some(u) => self.takes(u),
            None => self.fills(),
        }
    }

    // The leads given differ from those in either of the last two Sd sent.
    fn changed(self) -> bool
        ensures { result ≡ changed self.given.leads self.half }
    {
        let leads = self.given.leads;
        !(leads == self.half.last.leads && leads == self.half.before.leads)
    }

    // 3: a second Sd due repeats the leads of the first; after it one offered unit is owed the line.
    // 4: no unit is owed the line, and the leads changed: an Sd with the leads given, and a second is due.
    fn writes_claim(self) -> WritingMade
        ensures { result ≡ writing_made (writes_claim self.shape self.half self.given self.half.claim) }
    {
        let opening = self.half.opening;
        let leads = self.given.leads;
        match self.half.claim {
            Claim::Second(first) => self.writes_sd(opening, Claim::Owed, first),
            Claim::Free if self.changed() => self.writes_sd(opening, Claim::Second(leads), leads),
            Claim::Free | Claim::Owed => self.writes_offer(),
        }
    }

    // The break rule: while the flag is on, or BK of either of the last two Sd sent was on.
    fn held(self) -> bool
        ensures { result ≡ held self.given.flag self.half.last.bk self.half.before.bk }
    {
        self.given.flag || self.half.last.bk || self.half.before.bk
    }

    // 1 and 2, form 0: a DH due goes first, and then the break rule holds. In forms 7 and 8 leads claim nothing.
    #[tactic(auto, unfolding(protocol::specs::Sent::byte_sent, protocol::specs::Opened::writes_data))]
    fn writes_data(self) -> WritingMade
        ensures { result ≡ writing_made (writes_data self.shape self.half self.given) }
    {
        match (self.shape, self.half.due) {
            (Shape::Word(_), Some(high)) => self.sends(dh_due(high), false),
            (Shape::Word(_), None) if self.held() => self.writes_given(),
            (Shape::Unit(f), _) if pair_form(f) => self.writes_offer(),
            _ => self.writes_claim(),
        }
    }
}

// The first bytes: 16 Sd, then in forms 7 and 8 the pair; after these data.
#[tactic(auto, unfolding(protocol::specs::Sent::byte_sent, protocol::specs::Opened::writing, protocol::specs::Opened::writes_opening))]
pub fn writing(s: Shape, o: Outbound, g: Drive) -> WritingMade
    ensures { result ≡ writing_made (writing s o g) }
{
    let sender = Sender {
        shape: s,
        half: o,
        given: g,
    };
    if o.opening < OPENING_SD {
        sender.writes_sd(o.opening + 1, Claim::Free, g.leads)
    } else if o.opening < opening_bytes(s) {
        sender.writes(o.opening + 1, None, pair_byte(o.opening), false)
    } else {
        sender.writes_data()
    }
}

// The first byte after the opening, an Sd.
#[tactic(auto, unfolding(protocol::specs::Opened::writing, protocol::specs::Opened::writes_opening, protocol::specs::Opened::fresh_line))]
pub fn first_written(s: Shape, g: Drive) -> WritingMade
    ensures { result ≡ writing_made (writing s fresh_line.outbound g) }
{
    let half = fresh_line().outbound;
    let sender = Sender {
        shape: s,
        half,
        given: g,
    };
    sender.writes_sd(1, Claim::Free, g.leads)
}
