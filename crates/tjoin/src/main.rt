// tjoin: joins an originator's book and an answerer's over a delay, and tells how both ends conclude.
#![tactic(auto)]

use console::{Failure, Program, read_all};
use pair::report::report;
use std::env::Env;
use std::io::{Read, Write};

// One place more than the longest input, which tells a longer one from it.
const PLACES: usize = 85;

// What it is called, and what it tells who calls it with an argument.
const PROGRAM: Program = Program {
    name: b"tjoin",
    help: b"tjoin joins two ends by a channel without damage and tells how both conclude.\n\
It reads 18 to 84 bytes: the originator's book (17 bytes), the answerer's book\n\
(17 to 66) and the delay in slots (1 byte, not 0). It prints two lines, O and A:\n  \
O open VERSION PARAMETERS SLOT   it opened in that slot; parameters in hex\n  \
A refused NUMBER SLOT            it refused: 21 no version, 22 no profile, 23 clock\n\
or one line:\n  \
O refused by number NUMBER       the book of O, or of A, is at fault\n  \
pair refused                     these are not an originator's book and an answerer's\n  \
input refused                    it is too short or too long, or the delay is 0\n\
docs/NUMBERS.md says what each number means; examples/pair.hex has such an input.\n",
};

// Each program has its own: the room that it needs, and the one function that it calls.
fn answer<R: Read, W: Write>(from: &mut R, to: &mut W) -> Result<(), Failure> {
    let mut input = [0u8; PLACES];
    let n = read_all(from, &mut input)?;
    let said = report(&input[..n]);
    let written = to.write_all(said.as_bytes());
    written.map_err(|_| Failure::NotWritten)
}

// The same lines in each program: one function for all would take `answer` as a closure and require that it may be called, or by a trait,
// which wants a type and an impl in each program, no fewer lines.
fn main(rt: HostRuntime) {
    let argument = rt.arg(1, &mut [0u8; 1]);
    if !PROGRAM.explains(argument, &mut rt.stderr()) {
        let outcome = answer(&mut rt.stdin(), &mut rt.stdout());
        PROGRAM.ends(&mut rt.stderr(), outcome);
    }
}
