// One end, driven by a script: what is said of each slot.
#![tactic(auto)]

ghost use Rattle.std.specs.Prelude.{◌≡◌, min, length};
ghost use Rattle.text.specs.Text.{text};
ghost use Rattle.text.specs.Ascii.{ascii};
ghost use Rattle.text.specs.Output.{over};
ghost use Rattle.script.specs.Output.{lines_from, book_refused, script_says};

use crate::input::Script;
use book::Refusal;
use channel::byte::ChannelByte;
use endpoint::slot::{outcome, slot};
use endpoint::start::start;
use protocol::Endpoint;
use text::Text;

mod input; // input.rt: the test of a script, and what is in it
pub mod line; // line.rt: the line of a slot

fn input_refused() -> Text
    ensures { result ≡ text (ascii "input refused\n") }
{
    Text::new().word(b"input refused\n")
}

#[tactic(auto, using(text::proofs::Joined::appended_text), unfolding(crate::specs::Output::book_refused))]
fn book_refused(refusal: Refusal) -> Text
    ensures { result ≡ text (book_refused refusal) }
{
    Text::new()
        .word(b"book refused by number ")
        .decimal(u16::from(refusal.number()))
        .word(b"\n")
}

// The lines of the slots. Its answer and its buffer in a clause each, as `run` has them: one definition for both would be read in place of
// two equations.
fn lines(script: Script, begun: Endpoint, out: &mut [u8]) -> usize
    ensures value { result ≡ min (length (lines_from 0 begun script.entry.slots.now)) (length out.old) }
    ensures out_after { out.new ≡ over (lines_from 0 begun script.entry.slots.now) out.old }
{
    let mut e = begun;
    // the place that `put` promises, from one line to the next: a struct of buffer and place is no plainer
    let mut at: usize = 0;
    // nothing is left over, since `script_in` gives no slots that are cut
    let (slots, _) = script.slots.as_chunks::<3>();
    for (place, [heard, flags, unit]) in (0u16..).zip(slots) {
        let answer = slot(e, ChannelByte(*heard), input::drive(*flags, *unit));
        let told = line::line(place, outcome(answer.state), answer.reply);
        at = told.put(out, at);
        e = answer.state;
    }
    at
}

// What the script says stands in out from its start on, as much of it as there is room for; the reply is how much that is.
pub fn run(s: &[u8], out: &mut [u8]) -> usize
    ensures value { result ≡ min (length (script_says s.now)) (length out.old) }
    ensures out_after { out.new ≡ over (script_says s.now) out.old }
{
    let Some(script) = input::script_in(s) else {
        return input_refused().put(out, 0);
    };
    let begun = start(script.book);
    match begun.verdict {
        Ok(()) => lines(script, begun.state, out),
        Err(fault) => book_refused(fault.refusal).put(out, 0),
    }
}
