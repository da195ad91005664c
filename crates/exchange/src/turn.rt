// One slot of the exchange, answering and originating, but for the clock. What is sent is chosen from what was acted, and so stays beside
// it.
ghost use Rattle.std.specs.Prelude.{◌≡◌, cond};
ghost use Rattle.channel.specs.Bytes.{byte, sdidle};
ghost use Rattle.protocol.specs.Exchange.{originates, first_exchange, fate_heard, chosen, fate_sent, sends, turn};
ghost use Rattle.exchange.specs.Made.{made};

use crate::acting::acted;
use crate::answering::{chosen_answering, opens_on, settles_none};
use crate::matching::Acted;
use crate::originating::{
    all_exchanged, chosen_originating, compared, last_exchanged, last_of_zero_mask,
};
use crate::sending::{advanced, last_of_all};
use crate::sent::byte_sent;
use book::Book;
use channel::byte::ChannelByte;
use channel::kind::Kind;
use collecting::hearing::NO_NIBBLES;
use collecting::kept_book::originates;
use protocol::{Awaited, Exchange, Fate, Hearing, NO_VERSION, Sending};

// One slot of the exchange: the state after it, what becomes of the exchange, and the byte sent.
#[derive(Clone, Copy)]
pub struct TurnMade {
    pub exchange: Exchange,
    pub fate: Fate,
    pub sent: ChannelByte,
}

fn first_sending(b: Book) -> Sending
    ensures { result ≡ cond (originates b) Sending.Idle (Sending.Hail 0) }
{
    if originates(b) {
        Sending::Idle
    } else {
        Sending::Hail(0)
    }
}

// Nothing has come yet; an answerer sends Sgvi, an originator Sdidle.
#[tactic(auto, unfolding(protocol::specs::Exchange::first_exchange))]
pub fn first_exchange(b: Book) -> Exchange
    ensures { result ≡ first_exchange b }
{
    let hearing = Hearing {
        awaited: Awaited::Run { item: 0, count: 0 },
        nibbles: NO_NIBBLES,
        values: [0; 6],
    };
    Exchange {
        hearing,
        version: 0,
        sending: first_sending(b),
    }
}

// What the received byte brings about. Answering: no version, 21. Originating: its own all sent and the other's all received.
#[tactic(auto, unfolding(protocol::specs::Exchange::fate_heard))]
fn fate_heard(x: Exchange, y: Acted) -> Fate
    ensures { result ≡ fate_heard y.book x y.exchange }
{
    if originates(y.book) {
        if all_exchanged(y.exchange) {
            compared(y, Fate::OpensHearing(0))
        } else {
            Fate::Stays
        }
    } else if settles_none(x, y.exchange) {
        Fate::Refuses(NO_VERSION)
    } else {
        Fate::Stays
    }
}

fn chosen(y: Acted) -> Sending
    ensures { result ≡ chosen y.book y.exchange }
{
    if originates(y.book) {
        chosen_originating(y.exchange)
    } else {
        chosen_answering(y.exchange)
    }
}

// What the byte sent brings about. Originating: 21 with the sixth byte of 00; all sent and all received.
#[tactic(auto, unfolding(protocol::specs::Exchange::fate_sent))]
fn fate_sent(y: Acted, s: Sending) -> Fate
    ensures { result ≡ fate_sent y.book y.exchange s }
{
    if originates(y.book) {
        if last_of_zero_mask(y.exchange, s) {
            Fate::Refuses(NO_VERSION)
        } else if last_exchanged(y, s) {
            compared(y, Fate::OpensSending(0))
        } else {
            Fate::Stays
        }
    } else if last_of_all(y.book, s) {
        opens_on(y.entry)
    } else {
        Fate::Stays
    }
}

// A byte is sent.
#[tactic(auto, unfolding(protocol::specs::Exchange::sends))]
fn sends(y: Acted, s: Sending) -> TurnMade
    ensures { result ≡ made (sends y.book y.exchange s) }
{
    TurnMade {
        exchange: Exchange {
            sending: advanced(y.book, s),
            ..y.exchange
        },
        fate: fate_sent(y, s),
        sent: byte_sent(y, s),
    }
}

// Where the received byte ends the exchange, an end that refuses sends Sdidle, and one that opens sends as an open end.
fn ended(y: Exchange, fate: Fate) -> TurnMade
    ensures { result ≡ record { exchange = y; fate = fate; sent = byte sdidle } }
{
    TurnMade {
        exchange: y,
        fate,
        sent: ChannelByte::SDIDLE,
    }
}

// First the byte acts, then the byte to send is chosen from the new state.
#[tactic(auto, unfolding(protocol::specs::Exchange::turn, protocol::specs::Sent::byte_sent))]
pub fn turn(b: Book, x: Exchange, k: Kind) -> TurnMade
    ensures { result ≡ made (turn b x k) }
{
    let y = Acted::new(b, acted(b, x, k));
    let fate = fate_heard(x, y);
    match fate {
        Fate::Stays => sends(y, chosen(y)),
        Fate::OpensHearing(_) | Fate::OpensSending(_) | Fate::Refuses(_) => ended(y.exchange, fate),
    }
}
