// What the received byte does to the exchange: it is heard, and on the identifier the version is settled.
ghost use Rattle.std.specs.Prelude.{◌≡◌, cond};
ghost use Rattle.channel.specs.Versions.{highest};
ghost use Rattle.protocol.specs.Exchange.{settles, acted};

use book::Book;
use channel::kind::Kind;
use channel::version::shared_version;
use collecting::hearing::{has_identifier, hear};
use collecting::kept_book::identifier;
use protocol::{Exchange, Hearing};

// The identifier is voted in this slot.
pub(crate) fn settles(before: Hearing, after: Hearing) -> bool
    ensures { result ≡ settles before after }
{
    !has_identifier(before.awaited) & has_identifier(after.awaited)
}

// The version after the identifier is voted, 0 for none that both masks have; before, and in later slots, it stands.
#[tactic(auto, unfolding(channel::specs::Versions::shared))]
fn settled(settling: bool, version: u8, own: u8, other: u8) -> u8
    ensures { result ≡ cond settling (highest own other) version }
{
    if settling {
        shared_version(own, other).unwrap_or(0)
    } else {
        version
    }
}

// On the other's identifier the version is settled.
#[tactic(auto, unfolding(protocol::specs::Exchange::acted))]
pub(crate) fn acted(b: Book, x: Exchange, k: Kind) -> Exchange
    ensures { result ≡ acted b x k }
{
    let after = hear(b, x.hearing, k);
    let settling = settles(x.hearing, after);
    Exchange {
        hearing: after,
        version: settled(settling, x.version, identifier(b), after.values[0]),
        sending: x.sending,
    }
}
