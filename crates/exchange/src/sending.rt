// What is to be sent after a byte, and which byte is the last.
ghost use Rattle.std.specs.Prelude.{◌≡◌, ◌+◌, min};
ghost use Rattle.protocol.specs.Lengths.{identifier_run};
ghost use Rattle.protocol.specs.Exchange.{advanced, last_of_mask, last_of_all};

use book::Book;
use collecting::kept_book::originates;
use collecting::lengths::{GROUP_LENGTH, IDENTIFIER_RUN, all_parameter_bytes};
use protocol::Sending;

// Sgvi are counted up to 16.
#[tactic(auto, unfolding(protocol::specs::Lengths::identifier_run))]
fn hails_sent(n: u8) -> u8
    ensures { result ≡ min (n + 1) identifier_run }
{
    n.saturating_add(1).min(IDENTIFIER_RUN)
}

// After its identifier an originator sends its parameters, an answerer Sdidle.
#[tactic(auto, unfolding(protocol::specs::Exchange::advanced))]
fn after_mask(b: Book, i: u8) -> Sending
    ensures { result ≡ advanced b (Sending.Mask i) }
{
    if u16::from(i) + 1 < u16::from(GROUP_LENGTH) {
        Sending::Mask(i + 1)
    } else if originates(b) {
        Sending::Parameters(0)
    } else {
        Sending::Idle
    }
}

#[tactic(auto, unfolding(protocol::specs::Exchange::advanced))]
fn after_parameter(b: Book, i: u16) -> Sending
    ensures { result ≡ advanced b (Sending.Parameters i) }
{
    if u32::from(i) + 1 < u32::from(all_parameter_bytes(b)) {
        Sending::Parameters(i + 1)
    } else {
        Sending::Done
    }
}

// What is to be sent after that byte.
#[tactic(auto, unfolding(protocol::specs::Exchange::advanced))]
pub(crate) fn advanced(b: Book, s: Sending) -> Sending
    ensures { result ≡ advanced b s }
{
    match s {
        Sending::Idle | Sending::Done => s,
        Sending::Hail(n) => Sending::Hail(hails_sent(n)),
        Sending::Mask(i) => after_mask(b, i),
        Sending::Parameters(i) => after_parameter(b, i),
    }
}

// The group's sixth byte.
pub(crate) fn last_of_mask(s: Sending) -> bool
    ensures { result ≡ last_of_mask s }
{
    matches!(s, Sending::Mask(i) if u16::from(GROUP_LENGTH) <= u16::from(i) + 1)
}

// The own last byte.
pub(crate) fn last_of_all(b: Book, s: Sending) -> bool
    ensures { result ≡ last_of_all b s }
{
    matches!(s, Sending::Parameters(i) if u32::from(all_parameter_bytes(b)) <= u32::from(i) + 1)
}
