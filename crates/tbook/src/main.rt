// tbook: reads a book, and tells what it says or which byte of it is wrong.
#![tactic(auto)]

use bookwords::told;
use console::{Failure, Program, read_all};
use std::env::Env;
use std::io::{Read, Write};

// One place more than the longest book: what stands past that changes nothing of what is told.
const PLACES: usize = 67;

// Room for all that is told of any book.
const ROOM: usize = 400;

// What it is called, and what it tells who calls it with an argument.
const PROGRAM: Program = Program {
    name: b"tbook",
    help: b"tbook reads a book and tells which byte of it is wrong, or what the book says.\n\
It reads the bytes themselves, 17 to 66; xxd -r -p makes them from hex.\n\
Of a book that is refused it prints one line, with the first byte that is wrong:\n  \
refused by number 8 at byte 15: the form\n\
The bytes count from 0. docs/NUMBERS.md says what each number means and what to do.\n\
Of a book that is accepted it prints accepted, originating or answering, the versions,\n\
the limit in slots, and each entry with its parameters in hex and its form:\n  \
entry 0: 0102030405 form 7\n  \
entry 1: 0102030406 form 0 w 8\n\
examples/book.hex has such a book, and examples/book-form.hex one with a slip in it.\n",
};

// Each program has its own: the room that it needs, and the one function that it calls.
fn answer<R: Read, W: Write>(from: &mut R, to: &mut W) -> Result<(), Failure> {
    let mut input = [0u8; PLACES];
    let mut output = [0u8; ROOM];
    let n = read_all(from, &mut input)?;
    let length = told(&input[..n], &mut output);
    let written = to.write_all(&output[..length]);
    written.map_err(|_| Failure::NotWritten)
}

// The same lines in each program: one function for all would take `answer` as a closure and require that it may be called, or by a trait,
// which wants a type and an impl in each program, no fewer lines.
fn main(rt: HostRuntime) {
    let argument = rt.arg(1, &mut [0u8; 1]);
    if !PROGRAM.explains(argument, &mut rt.stderr()) {
        let outcome = answer(&mut rt.stdin(), &mut rt.stdout());
        PROGRAM.ends(&mut rt.stderr(), outcome);
    }
}
