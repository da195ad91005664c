// samples: runs the samples of document 01 that are to be run, and of its requests, and tells what came beside what is said.
#![tactic(auto)]

use book::{Refusal, read_book};
use channel::byte::ChannelByte;
use console::{Failure, Program, read_all};
use endpoint::slot::slot;
use endpoint::start::start;
use opened::drive::idle;
use pair::report::report;
use protocol::Reply;
use std::env::Env;
use std::io;
use std::io::{Error, ErrorKind, Read, Write};
use text::Text;

mod books;
mod leads;

// An input and an output that are closed: each read and each write fails.
#[derive(Drop)]
struct Closed;

impl Read for Closed {
    fn read(&mut self, _buf: &mut [u8]) -> io::Result<usize> {
        Err(Error::from(ErrorKind::NotConnected))
    }
}

impl Write for Closed {
    fn write(&mut self, _buf: &[u8]) -> io::Result<usize> {
        Err(Error::from(ErrorKind::NotConnected))
    }

    fn flush(&mut self) -> io::Result<()> {
        Ok(())
    }
}

// What it is called, and what it tells who calls it with an argument.
const PROGRAM: Program = Program {
    name: b"samples",
    help: b"samples runs the samples of document 01 and of its requests, and reads nothing.\n\
It prints for each sample what is run, what came and what 01 or 02 says of it:\n  \
limit 424\n  \
came:\n  \
refused 6\n  \
01 says:\n  \
refused 6\n\
Two more, of an input and of an output that is closed, show what every program tells\n\
of these, beside what is wanted. The gate holds all of it to crates/samples/stdout,\n\
where what came and what is said agree in every sample.\n",
};

// Who says what is to come.
const DOCUMENT: &[u8] = b"01 says:\n";

const REQUESTS: &[u8] = b"02 says:\n";

fn begun<W: Write>(out: &mut W, sample: &[u8]) -> io::Result<()> {
    out.write_all(sample)?;
    out.write_all(b"\ncame:\n")
}

fn ended<W: Write>(out: &mut W, by: &[u8], says: &[u8]) -> io::Result<()> {
    out.write_all(by)?;
    out.write_all(says)?;
    out.write_all(b"\n")
}

fn show<W: Write>(
    out: &mut W,
    sample: &[u8],
    came: Text,
    by: &[u8],
    says: &[u8],
) -> io::Result<()> {
    begun(out, sample)?;
    out.write_all(came.as_bytes())?;
    ended(out, by, says)
}

pub(crate) fn sent(r: Reply) -> u8 {
    r.map_or(0, |passed| passed.sent.0)
}

// What an answering end sends in the slot in which the last of these bytes comes.
fn sent_after(heard: &[u8]) -> Text {
    let mut e = start(&books::one(500)).state;
    let mut last = 0;
    for &byte in heard {
        let answer = slot(e, ChannelByte(byte), idle());
        last = sent(answer.reply);
        e = answer.state;
    }
    Text::new().word(b"sends ").hex(last).word(b"\n")
}

fn verdict(s: &[u8]) -> Text {
    match read_book(s).verdict {
        Ok(()) => Text::new().word(b"accepted\n"),
        Err(fault) => refused_by(fault.refusal).word(b"\n"),
    }
}

// The number that refuses s, and the first offending byte.
#[tactic(auto, using(book::proofs::Offending::offset_short))]
fn place(s: &[u8]) -> Text {
    match read_book(s).verdict {
        Ok(()) => Text::new().word(b"accepted\n"),
        Err(fault) => refused_by(fault.refusal)
            .word(b" at byte ")
            // it fits, as the offset of any book's fault does
            .decimal(fault.offset as u16)
            .word(b"\n"),
    }
}

fn refused_by(refusal: Refusal) -> Text {
    Text::new()
        .word(b"refused ")
        .decimal(u16::from(refusal.number()))
}

fn joined(mask_o: u8, mask_a: u8, limit: u16, delay: u8) -> Text {
    report(&books::pair(mask_o, 7, mask_a, 7, limit, delay))
}

// Each of these functions has the samples of one rule: its calls of `show`, apart so that no function is long. An array of them, gone
// over by a loop, would be as long.
fn runs<W: Write>(out: &mut W) -> io::Result<()> {
    show(
        out,
        b"15 Sgvi, one 43, one Sgvi, to an answerer of mask 3",
        sent_after(&books::NO_RUN),
        DOCUMENT,
        b"no run: Sgvi, 57, goes on\n",
    )?;
    show(
        out,
        b"16 Sgvi in a row, to the same",
        sent_after(&books::RUN),
        DOCUMENT,
        b"a run: the mask goes, first its DL, 35\n",
    )
}

fn limits<W: Write>(out: &mut W) -> io::Result<()> {
    show(
        out,
        b"limit 424",
        verdict(&books::one(424)),
        DOCUMENT,
        b"refused 6\n",
    )?;
    show(
        out,
        b"limit 425",
        verdict(&books::one(425)),
        DOCUMENT,
        b"accepted\n",
    )
}

fn entries<W: Write>(out: &mut W) -> io::Result<()> {
    show(
        out,
        b"nine entries",
        verdict(&books::NINE),
        DOCUMENT,
        b"refused 7\n",
    )?;
    show(
        out,
        b"eight entries",
        verdict(&books::EIGHT),
        DOCUMENT,
        b"accepted\n",
    )
}

// #101: a wrong form and a wrong word length are told apart, each at its byte.
fn places<W: Write>(out: &mut W) -> io::Result<()> {
    show(
        out,
        b"form 5 in the second entry",
        place(&books::two(5, 0)),
        REQUESTS,
        b"refused 8 at byte 22\n",
    )?;
    show(
        out,
        b"form 0 there, with a word length of 9",
        place(&books::two(0, 9)),
        REQUESTS,
        b"refused 17 at byte 23\n",
    )
}

fn delays<W: Write>(out: &mut W) -> io::Result<()> {
    show(
        out,
        b"delay 2, limits 430",
        joined(3, 3, 430, 2),
        DOCUMENT,
        b"both open, O in slot 429, A in 427\n",
    )?;
    show(
        out,
        b"delay 2, limits 429",
        joined(3, 3, 429, 2),
        DOCUMENT,
        b"A opens in 427, O refuses 23 in slot 428\n",
    )
}

fn examples<W: Write>(out: &mut W) -> io::Result<()> {
    show(
        out,
        b"tjoin, both masks 3, limit 500, delay 1",
        joined(3, 3, 500, 1),
        DOCUMENT,
        b"O open 2 0102030405 424\nA open 2 0102030405 423\n",
    )?;
    show(
        out,
        b"tjoin, masks 1 and 2",
        joined(1, 2, 500, 1),
        DOCUMENT,
        b"O refused 21 43\nA refused 21 44\n",
    )
}

// #102: form 8 on units set for both versions.
fn eights<W: Write>(out: &mut W) -> io::Result<()> {
    show(
        out,
        b"tjoin, mask 1 and form 8",
        report(&books::pair(1, 8, 3, 8, 500, 1)),
        REQUESTS,
        b"O refused by number 9\n",
    )?;
    show(
        out,
        b"tjoin, both masks 3, form 8 in both",
        report(&books::pair(3, 8, 3, 8, 500, 1)),
        REQUESTS,
        b"both open on version 2, O in slot 424, A in 423\n",
    )?;
    show(
        out,
        b"tjoin, mask 3 and form 8, to mask 1",
        report(&books::pair(3, 8, 1, 7, 500, 1)),
        REQUESTS,
        b"they share no version: O refuses 21 in slot 43, A in 44\n",
    )?;
    show(
        out,
        b"tjoin, mask 3 and form 7, to mask 1",
        report(&books::pair(3, 7, 1, 7, 500, 1)),
        REQUESTS,
        b"both open on version 1, O in slot 424, A in 423\n",
    )
}

fn left_out<W: Write>(out: &mut W) -> io::Result<()> {
    show(
        out,
        b"tjoin, mask 1, to mask 3 with a form 7 and a form 8 entry, calling on the second",
        report(&books::called_on_second(1, 7)),
        REQUESTS,
        b"on version 1 it is left out: O refuses 22 in slot 424, A in 423\n",
    )?;
    show(
        out,
        b"tjoin, mask 3 and form 8, to the same",
        report(&books::called_on_second(3, 8)),
        REQUESTS,
        b"both open on version 2, O in slot 424, A in 423\n",
    )?;
    show(
        out,
        b"tjoin, mask 1 and form 7, to mask 3 and form 8, equal parameters",
        report(&books::pair(1, 7, 3, 8, 500, 1)),
        REQUESTS,
        b"entry 0 is left out, and its values are answered: O opens, A refuses 22\n",
    )
}

// #104: two Sd go before the next unit, and then one unit before leads may go again.
fn leads_ahead<W: Write>(out: &mut W) -> io::Result<()> {
    show(
        out,
        b"form 6, a unit offered in every slot, DTR drops in the third",
        leads::sends(6, 0, &leads::DROPS),
        REQUESTS,
        b"two Sd, 43, before the next unit, 85\n",
    )?;
    show(
        out,
        b"form 0, words of 8 bits, the same",
        leads::sends(0, 8, &leads::DROPS),
        REQUESTS,
        b"two Sd, 43, before the next word, 15 2D\n",
    )?;
    show(
        out,
        b"form 6, the same, but DTR chatters",
        leads::sends(6, 0, &leads::CHATTERS),
        REQUESTS,
        b"the second Sd repeats the first, and then a unit is taken\n",
    )?;
    show(
        out,
        b"form 7, the same",
        leads::sends(7, 0, &leads::CHATTERS),
        REQUESTS,
        b"nothing changes: the pair, and then units\n",
    )
}

fn closed_input<W: Write>(out: &mut W) -> io::Result<()> {
    begun(out, b"a program whose input is closed")?;
    let read = read_all(&mut Closed, &mut [0u8; 1]);
    PROGRAM.ends(out, read.map(|_| ()));
    ended(out, b"wanted:\n", b"samples: the input could not be read\n")
}

fn closed_output<W: Write>(out: &mut W) -> io::Result<()> {
    begun(out, b"a program whose output is closed")?;
    let written = Closed.write_all(b"what is not written\n");
    PROGRAM.ends(out, written.map_err(|_| Failure::NotWritten));
    ended(
        out,
        b"wanted:\n",
        b"samples: the output could not be written\n",
    )
}

fn samples<W: Write>(out: &mut W) -> io::Result<()> {
    runs(out)?;
    limits(out)?;
    delays(out)?;
    entries(out)?;
    places(out)?;
    examples(out)?;
    eights(out)?;
    left_out(out)?;
    leads_ahead(out)?;
    closed_input(out)?;
    closed_output(out)
}

fn main(rt: HostRuntime) {
    let argument = rt.arg(1, &mut [0u8; 1]);
    if !PROGRAM.explains(argument, &mut rt.stderr()) {
        let written = samples(&mut rt.stdout());
        PROGRAM.ends(&mut rt.stderr(), written.map_err(|_| Failure::NotWritten));
    }
}
