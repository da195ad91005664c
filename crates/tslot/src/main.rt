// tslot: drives one end with given bytes, slot by slot, and tells what it does in each.
#![tactic(auto)]

ghost use Rattle.std.specs.Prelude.{◌≡◌, length};

use console::{Failure, Program, read_all};
use std::env::Env;
use std::io::{Read, Write};

// Room for what any script says: 17 bytes for each byte that is read.
fn output_buffer() -> [u8; 1114112]
    ensures { 1114112 ≡ length result }
{
    [0; 1114112]
}

// What it is called, and what it tells who calls it with an argument.
const PROGRAM: Program = Program {
    name: b"tslot",
    help: b"tslot drives one end with given bytes and tells what it does in each slot.\n\
It reads up to 65,535 bytes: the book's length (2 bytes), the book, then for each slot\n\
3 bytes: the byte received; s0 to s3 in bits 0 to 3, the break flag in bit 4, bit 5 on\n\
if a unit is offered; the unit. It prints a line a slot, so:\n  \
277 55 - t 10010 open 2/0102030405/260\n\
place, byte sent, unit delivered, t if the offered one was taken, s3 s2 s1 s0 BK received,\n\
exchange, open or refused, then VERSION/PARAMETERS/SLOT or NUMBER/SLOT; and last by 12 if\n\
the slot was refused and has not passed. Or one line, book refused by number NUMBER (see\n\
docs/NUMBERS.md), or input refused: it is too long, is cut in the length, the book or a\n\
slot, or has bit 6 or 7 on. examples/answerer.hex has such an input.\n",
};

// Each program has its own: the room that it needs, and the one function that it calls.
fn answer<R: Read, W: Write>(from: &mut R, to: &mut W) -> Result<(), Failure> {
    // one byte longer than the largest script, so that a larger one is told
    let mut input = io::large_buffer();
    let mut output = output_buffer();
    let n = read_all(from, &mut input)?;
    let length = script::run(&input[..n], &mut output);
    let written = to.write_all(&output[..length]);
    written.map_err(|_| Failure::NotWritten)
}

// The same lines in each program: one function for all would take `answer` as a closure and require that it may be called, or by a trait,
// which wants a type and an impl in each program, no fewer lines.
fn main(rt: HostRuntime) {
    let argument = rt.arg(1, &mut [0u8; 1]);
    if !PROGRAM.explains(argument, &mut rt.stderr()) {
        let outcome = answer(&mut rt.stdin(), &mut rt.stdout());
        PROGRAM.ends(&mut rt.stderr(), outcome);
    }
}
