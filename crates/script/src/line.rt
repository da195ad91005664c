// The line of a slot: seven fields parted by one space. Functions of a text and not methods, since the type is another crate's, and a trait
// would have each twice, declared and made.
ghost use Rattle.std.specs.Prelude.{◌≡◌};
ghost use Rattle.text.specs.Text.{text, appended};
ghost use Rattle.script.specs.Line.{space, sent_field, unit_field, delivered_field, taken_field, flag_digit, signal_digits, signals_field, stands_field, detail_field, refusal_note, reply_fields, outcome_fields, line_of};

use protocol::{Outcome, Reply, Signals};
use text::Text;

fn spaced(t: Text) -> Text
    ensures { result ≡ appended t space }
{
    t.word(b" ")
}

#[tactic(auto, unfolding(crate::specs::Line::sent_field))]
fn with_sent(t: Text, reply: Reply) -> Text
    ensures { result ≡ appended t (sent_field reply) }
{
    match reply {
        Ok(passed) => t.hex(passed.sent.0),
        Err(_) => t.word(b"--"),
    }
}

fn with_unit(t: Text, delivered: Option<u8>) -> Text
    ensures { result ≡ appended t (unit_field delivered) }
{
    match delivered {
        None => t.word(b"-"),
        Some(u) => t.decimal(u16::from(u)),
    }
}

#[tactic(auto, unfolding(crate::specs::Line::delivered_field))]
fn with_delivered(t: Text, reply: Reply) -> Text
    ensures { result ≡ appended t (delivered_field reply) }
{
    match reply {
        Ok(passed) => with_unit(t, passed.delivered),
        Err(_) => t.word(b"-"),
    }
}

#[tactic(auto, unfolding(crate::specs::Line::taken_field))]
fn with_taken(t: Text, reply: Reply) -> Text
    ensures { result ≡ appended t (taken_field reply) }
{
    match reply {
        Ok(passed) => {
            if passed.taken {
                return t.word(b"t");
            }
            t.word(b"-")
        }
        Err(_) => t.word(b"-"),
    }
}

fn with_flag(t: Text, on: bool) -> Text
    ensures { result ≡ appended t (flag_digit on) }
{
    if on {
        return t.word(b"1");
    }
    t.word(b"0")
}

// s3 s2 s1 s0 BK.
#[tactic(auto, using(text::proofs::Joined::appended_append), unfolding(crate::specs::Line::signal_digits))]
fn with_signals(t: Text, g: Signals) -> Text
    ensures { result ≡ appended t (signal_digits g) }
{
    let leads = g.leads;
    let a = with_flag(t, leads.s3);
    let b = with_flag(a, leads.s2);
    let c = with_flag(b, leads.s1);
    let d = with_flag(c, leads.s0);
    with_flag(d, g.bk)
}

#[tactic(auto, unfolding(crate::specs::Line::signals_field))]
fn with_standing(t: Text, o: Outcome) -> Text
    ensures { result ≡ appended t (signals_field o) }
{
    match o {
        Outcome::Exchanging => t.word(b"-----"),
        Outcome::Open { signals, .. } => with_signals(t, signals),
        Outcome::Refused { .. } => t.word(b"-----"),
    }
}

#[tactic(auto, unfolding(crate::specs::Line::stands_field))]
fn with_stands(t: Text, o: Outcome) -> Text
    ensures { result ≡ appended t (stands_field o) }
{
    match o {
        Outcome::Exchanging => t.word(b"exchange"),
        Outcome::Open { .. } => t.word(b"open"),
        Outcome::Refused { .. } => t.word(b"refused"),
    }
}

#[tactic(auto, using(text::proofs::Joined::appended_append), unfolding(crate::specs::Line::detail_field))]
fn with_detail(t: Text, o: Outcome) -> Text
    ensures { result ≡ appended t (detail_field o) }
{
    match o {
        Outcome::Exchanging => t.word(b"-"),
        Outcome::Open {
            version,
            profile,
            slot,
            ..
        } => t
            .decimal(u16::from(version))
            .word(b"/")
            .parameters(profile)
            .word(b"/")
            .decimal(slot),
        Outcome::Refused { number, slot } => {
            t.decimal(u16::from(number)).word(b"/").decimal(slot)
        }
    }
}

#[tactic(auto, unfolding(crate::specs::Line::refusal_note, text::specs::Text::appended))]
fn with_note(t: Text, reply: Reply) -> Text
    ensures { result ≡ appended t (refusal_note reply) }
{
    match reply {
        Ok(_) => t,
        Err(refusal) => t.word(b" by ").decimal(u16::from(refusal.number())),
    }
}

#[tactic(auto, using(text::proofs::Joined::appended_append), unfolding(crate::specs::Line::reply_fields))]
fn with_reply(t: Text, reply: Reply) -> Text
    ensures { result ≡ appended t (reply_fields reply) }
{
    let sent = with_sent(t, reply);
    let delivered = with_delivered(spaced(sent), reply);
    with_taken(spaced(delivered), reply)
}

#[tactic(auto, using(text::proofs::Joined::appended_append), unfolding(crate::specs::Line::outcome_fields))]
fn with_outcome(t: Text, o: Outcome) -> Text
    ensures { result ≡ appended t (outcome_fields o) }
{
    let standing = with_standing(t, o);
    let stands = with_stands(spaced(standing), o);
    with_detail(spaced(stands), o)
}

// The line of the slot at a place, counted from 0, with the outcome after it.
#[tactic(auto, using(text::proofs::Joined::appended_text), unfolding(crate::specs::Line::line_of))]
pub fn line(place: u16, o: Outcome, reply: Reply) -> Text
    ensures { result ≡ text (line_of place o reply) }
{
    let placed = Text::new().decimal(place);
    let replied = with_reply(spaced(placed), reply);
    let told = with_outcome(spaced(replied), o);
    with_note(told, reply).word(b"\n")
}
