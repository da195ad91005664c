// #104: an open end that is offered a unit in every slot, while its leads change.
use crate::{books, sent};
use channel::byte::{ChannelByte, Leads};
use endpoint::slot::slot;
use endpoint::start::start;
use opened::drive::drive_with;
use opened::line::fresh_line;
use protocol::{Endpoint, Phase, SlotAnswer};
use text::Text;

// The leads with DTR, which is s3, on and off.
const UP: Leads = Leads {
    s0: false,
    s1: false,
    s2: true,
    s3: true,
};

const DOWN: Leads = Leads {
    s0: false,
    s1: false,
    s2: true,
    s3: false,
};

// The leads slot by slot, the first 16 with the Sd of the opening: DTR drops.
pub(crate) const DROPS: [Leads; 22] = [
    UP, UP, UP, UP, UP, UP, UP, UP, UP, UP, UP, UP, UP, UP, UP, UP, UP, UP, DOWN, DOWN, DOWN, DOWN,
];

// DTR chatters.
pub(crate) const CHATTERS: [Leads; 22] = [
    UP, UP, UP, UP, UP, UP, UP, UP, UP, UP, UP, UP, UP, UP, UP, UP, DOWN, UP, DOWN, UP, DOWN, UP,
];

const OPENING: usize = 16;

// An end that has just opened on the second entry of a book.
fn opened(form: u8, w: u8) -> Endpoint {
    let phase = Phase::Open {
        slot: 260,
        version: 2,
        entry: 1,
        line: fresh_line(),
    };
    Endpoint {
        phase,
        ..start(&books::two(form, w)).state
    }
}

// A slot with these leads: Sdidle is heard, and the unit 21 hex offered.
fn offered(e: Endpoint, leads: Leads) -> SlotAnswer {
    let drive = drive_with(leads, false, Some(0x21));
    slot(e, ChannelByte::SDIDLE, drive)
}

// The byte that went in slot i, told after the opening.
fn told(t: Text, i: usize, byte: u8) -> Text {
    if i < OPENING {
        return t;
    }
    t.word(b" ").hex(byte)
}

fn heading() -> Text {
    Text::new().word(b"sends")
}

// What goes after the opening.
pub(crate) fn sends(form: u8, w: u8, given: &[Leads]) -> Text {
    let mut e = opened(form, w);
    let mut t = heading();
    for (i, &leads) in given.iter().enumerate() {
        let answer = offered(e, leads);
        t = told(t, i, sent(answer.reply));
        e = answer.state;
    }
    t.word(b"\n")
}
