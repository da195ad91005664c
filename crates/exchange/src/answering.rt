// What an answerer does by itself: what it sends next, what it replies and how it concludes.
ghost use Rattle.std.specs.Prelude.{◌≡◌, ◌&&◌, eqb};
ghost use Rattle.protocol.specs.Exchange.{settles, chosen_answering, answered, opens_on};

use crate::acting::settles;
use collecting::hearing::{awaits_hail, has_all};
use protocol::{Exchange, Fate, NO_PROFILE, Sending};

// The identifier is voted in this slot, and no version is shared.
pub(crate) fn settles_none(x: Exchange, y: Exchange) -> bool
    ensures { result ≡ (settles x.hearing y.hearing && eqb y.version 0) }
{
    settles(x.hearing, y.hearing) & (y.version == 0)
}

// Sgvi until 16 contiguous Sgvi have come, from that slot the identifier, then Sdidle; from the slot that completes p4 the parameters.
#[tactic(auto, unfolding(protocol::specs::Exchange::chosen_answering))]
pub(crate) fn chosen_answering(y: Exchange) -> Sending
    ensures { result ≡ chosen_answering y y.sending }
{
    let awaited = y.hearing.awaited;
    match y.sending {
        Sending::Idle => {
            if has_all(awaited) {
                Sending::Parameters(0)
            } else {
                Sending::Idle
            }
        }
        Sending::Hail(n) => {
            if awaits_hail(awaited) {
                Sending::Hail(n)
            } else {
                Sending::Mask(0)
            }
        }
        Sending::Mask(_) | Sending::Parameters(_) | Sending::Done => y.sending,
    }
}

pub(crate) fn answered(m: Option<u8>, theirs: [u8; 5], own: [u8; 5]) -> [u8; 5]
    ensures { result ≡ answered m theirs own }
{
    match m {
        Some(_) => theirs,
        None => own,
    }
}

// With the last byte sent an answerer opens if some entry equals the originator's values, else refuses 22.
pub(crate) fn opens_on(m: Option<u8>) -> Fate
    ensures { result ≡ opens_on m }
{
    match m {
        Some(i) => Fate::OpensSending(i),
        None => Fate::Refuses(NO_PROFILE),
    }
}
