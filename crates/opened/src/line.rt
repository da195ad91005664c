// The halves of an open end, put together, and the line at the opening.
ghost use Rattle.std.specs.Prelude.{◌≡◌};
ghost use Rattle.protocol.specs.Opened.{outbound_of, inbound_of, idle_leads, idle_signals, fresh_line};

use channel::byte::Leads;
use protocol::{Claim, Inbound, Line, Outbound, Signals};

// The sending half. A function and no literal, as `inbound_of` is: public, with a promise and edits of its own.
pub fn outbound_of(
    opening: u8,
    due: Option<u8>,
    claim: Claim,
    last: Signals,
    before: Signals,
) -> Outbound
    ensures { result ≡ outbound_of opening due claim last before }
{
    Outbound {
        opening,
        due,
        claim,
        last,
        before,
    }
}

// The receiving half.
pub fn inbound_of(half: Option<u8>, pair: u8, last: Signals, standing: Signals) -> Inbound
    ensures { result ≡ inbound_of half pair last standing }
{
    Inbound {
        half,
        pair,
        last,
        standing,
    }
}

// The leads of Sdidle: s2 alone is on.
pub(crate) fn idle_leads() -> Leads
    ensures { result ≡ idle_leads }
{
    Leads {
        s0: false,
        s1: false,
        s2: true,
        s3: false,
    }
}

fn idle_signals() -> Signals
    ensures { result ≡ idle_signals }
{
    Signals {
        leads: idle_leads(),
        bk: false,
    }
}

// At the opening nothing has gone, and it is as if two Sdidle had gone and two had come.
#[tactic(auto, unfolding(protocol::specs::Opened::fresh_line))]
pub fn fresh_line() -> Line
    ensures { result ≡ fresh_line }
{
    let idle = idle_signals();
    let outbound = outbound_of(0, None, Claim::Free, idle, idle);
    let inbound = inbound_of(None, 0, idle, idle);
    Line { outbound, inbound }
}
