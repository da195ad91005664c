// The byte that is sent: of a group, of the parameters, and by what is to be sent.
ghost use Rattle.std.specs.Prelude.{◌≡◌, get_or};
ghost use Rattle.channel.specs.Bytes.{byte, sgp};
ghost use Rattle.protocol.specs.Sent.{group_byte, byte_sent, parameter_sent};
ghost use Rattle.protocol.specs.Exchange.{mask_sent, values_sent, sent_as};

use crate::answering::answered;
use crate::matching::{Acted, heard_params};
use book::Book;
use channel::byte::ChannelByte;
use collecting::kept_book::{entry_of, identifier, originates};
use collecting::lengths::{parameter_bytes, parameter_lead};
use protocol::Sending;

// Three DL DH pairs.
fn group_byte(place: u16, value: u8) -> ChannelByte
    ensures { result ≡ byte (group_byte place value) }
{
    if place % 2 == 0 {
        ChannelByte::dl(value)
    } else {
        ChannelByte::dh(value)
    }
}

// Sgpk; Sgp4 for any k above.
fn sgp(k: u16) -> ChannelByte
    ensures { result ≡ byte (sgp k) }
{
    match k {
        0 => ChannelByte::SGP0,
        1 => ChannelByte::SGP1,
        2 => ChannelByte::SGP2,
        3 => ChannelByte::SGP3,
        _ => ChannelByte::SGP4,
    }
}

// Parameter k of five; 0 for any k above, as the definition has it.
fn value_at(values: [u8; 5], k: u16) -> u8
    ensures { result ≡ get_or values k 0 }
{
    values.get(usize::from(k)).copied().unwrap_or(0)
}

// Byte i of the five parameters, each 32 Sgpk and its group.
#[tactic(auto, unfolding(protocol::specs::Sent::byte_sent, protocol::specs::Sent::parameter_sent))]
fn parameter_byte(b: Book, values: [u8; 5], i: u16) -> ChannelByte
    ensures { result ≡ byte (byte_sent (parameter_sent b values i)) }
{
    let length = parameter_bytes(b);
    let lead = u16::from(parameter_lead(b));
    let k = i / length;
    let place = i % length;
    if place < lead {
        sgp(k)
    } else {
        group_byte(place - lead, value_at(values, k))
    }
}

// The own identifier, or 00 from an originator if no version is shared.
fn mask_sent(b: Book, version: u8) -> u8
    ensures { result ≡ mask_sent b version }
{
    if originates(b) & (version == 0) {
        0
    } else {
        identifier(b)
    }
}

// The originator's values if some entry equals them, else those of entry 0; an originator's are those of entry 0.
fn values_sent(y: Acted) -> [u8; 5]
    ensures { result ≡ values_sent y.book y.exchange.version y.exchange.hearing }
{
    let own = entry_of(y.book, 0).params();
    if originates(y.book) {
        own
    } else {
        answered(y.entry, heard_params(y.exchange.hearing), own)
    }
}

#[tactic(auto, unfolding(protocol::specs::Sent::byte_sent, protocol::specs::Exchange::sent_as))]
pub(crate) fn byte_sent(y: Acted, s: Sending) -> ChannelByte
    ensures { result ≡ byte (byte_sent (sent_as y.book y.exchange s)) }
{
    match s {
        Sending::Idle | Sending::Done => ChannelByte::SDIDLE,
        Sending::Hail(_) => ChannelByte::SGVI,
        Sending::Mask(i) => group_byte(u16::from(i), mask_sent(y.book, y.exchange.version)),
        Sending::Parameters(i) => parameter_byte(y.book, values_sent(y), i),
    }
}
