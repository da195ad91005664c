// What an originator does by itself: what it sends next, and when it compares.
ghost use Rattle.std.specs.Prelude.{◌≡◌, ◌&&◌, eqb};
ghost use Rattle.protocol.specs.Collecting.{has_all};
ghost use Rattle.protocol.specs.Exchange.{all_sent, compared, chosen_originating, last_of_mask, last_of_all};

use crate::matching::{Acted, has_params, heard_params};
use crate::sending::{last_of_all, last_of_mask};
use collecting::hearing::{awaits_hail, has_all, has_identifier};
use collecting::kept_book::entry_of;
use collecting::lengths::IDENTIFIER_RUN;
use protocol::{Exchange, Fate, NO_PROFILE, Sending};

fn all_sent(s: Sending) -> bool
    ensures { result ≡ all_sent s }
{
    matches!(s, Sending::Done)
}

// Its own all sent and the other's all received.
pub(crate) fn all_exchanged(y: Exchange) -> bool
    ensures { result ≡ (all_sent y.sending && has_all y.hearing.awaited) }
{
    all_sent(y.sending) & has_all(y.hearing.awaited)
}

// Originating: opens if all five are equal, else refuses 22.
pub(crate) fn compared(y: Acted, opens: Fate) -> Fate
    ensures { result ≡ compared y.book y.exchange.hearing opens }
{
    if has_params(entry_of(y.book, 0), heard_params(y.exchange.hearing)) {
        opens
    } else {
        Fate::Refuses(NO_PROFILE)
    }
}

// Sdidle until 16 contiguous Sgvi have come, then Sgvi; from the slot that settles the version, but after at least 16 Sgvi sent, the
// identifier.
#[tactic(auto, unfolding(protocol::specs::Exchange::chosen_originating, protocol::specs::Lengths::identifier_run))]
pub(crate) fn chosen_originating(y: Exchange) -> Sending
    ensures { result ≡ chosen_originating y y.sending }
{
    let awaited = y.hearing.awaited;
    match y.sending {
        Sending::Idle => {
            if awaits_hail(awaited) {
                Sending::Idle
            } else {
                Sending::Hail(0)
            }
        }
        Sending::Hail(n) => {
            if has_identifier(awaited) & (IDENTIFIER_RUN <= n) {
                Sending::Mask(0)
            } else {
                Sending::Hail(n)
            }
        }
        Sending::Mask(_) | Sending::Parameters(_) | Sending::Done => y.sending,
    }
}

// The sixth byte of 00.
pub(crate) fn last_of_zero_mask(y: Exchange, s: Sending) -> bool
    ensures { result ≡ (last_of_mask s && eqb y.version 0) }
{
    last_of_mask(s) & (y.version == 0)
}

// The own last byte, and the other's all received.
pub(crate) fn last_exchanged(y: Acted, s: Sending) -> bool
    ensures { result ≡ (last_of_all y.book s && has_all y.exchange.hearing.awaited) }
{
    last_of_all(y.book, s) & has_all(y.exchange.hearing.awaited)
}
