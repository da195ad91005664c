// What every program does with its input and its output: it reads all of the one, and tells where one of them failed.
#![tactic(auto)]

ghost use Rattle.std.specs.Prelude.{length, ◌≡◌, ◌<◌, take, IfOk};
ghost use Rattle.std.specs.Io.KnownBytes.{Consumes, IsAtEnd};
ghost use Rattle.text.specs.Text.{text};
ghost use Rattle.console.specs.Reading.{Within, came_of};
ghost use Rattle.console.specs.Telling.{told_of, ended};
ghost use Rattle.console.specs.Arguments.{is_argument};

use std::env::FillError;
use std::io;
use std::io::{Read, Write};
use text::Text;

// What a program could not do.
#[derive(Clone, Copy, PartialEq, Eq, Debug)]
pub enum Failure {
    NotRead,
    NotWritten,
}

// Reads until the buffer is full or the input ends; the reply is how many bytes stand at its start, and these are the first that the input
// had left. An input that ends at once has been read; one that is closed, or a directory, has not.
#[tactic(auto, using(crate::proofs::Reading::filled_on))]
pub fn read_all<R: Read>(from: &mut R, buf: &mut [u8]) -> Result<usize, Failure>
    ensures within { Within (length buf.new) result }
    ensures bytes { IfOk result (λ n. Consumes (R.remaining from.old) (R.remaining from.new) (take n buf.new)) }
    ensures end { IfOk result (λ n. n < length buf.new → IsAtEnd (R.remaining from.new)) }
{
    let mut done = 0;
    // a `while`, since how many reads it takes is the reader's to say
    while done < buf.len() {
        let n = read_some(from, &mut buf[done..])?;
        if n == 0 {
            break;
        }
        done += n;
    }
    Ok(done)
}

// One read. Of an input that has ended no byte comes.
fn read_some<R: Read>(from: &mut R, buf: &mut [u8]) -> Result<usize, Failure>
    ensures within { Within (length buf.new) result }
    ensures bytes { IfOk result (λ n. Consumes (R.remaining from.old) (R.remaining from.new) (take n buf.new)) }
    ensures end { IfOk result (λ n. n ≡ 0 → 0 < length buf.new → IsAtEnd (R.remaining from.new)) }
{
    let read = from.read(buf);
    came(read, buf)
}

// What a read of the library gave: how many bytes came, or that it failed.
#[tactic(auto, unfolding(crate::specs::Reading::came_of))]
fn came(read: io::Result<usize>, buf: &[u8]) -> Result<usize, Failure>
    ensures { result ≡ came_of read (length buf.now) }
{
    match read {
        Ok(n) => Ok(n.min(buf.len())),
        Err(_) => Err(Failure::NotRead),
    }
}

// Whether what the system answered to the question for an argument tells of one. A long one does not fit, and is one.
pub fn is_argument(answer: Result<usize, FillError>) -> bool
    ensures { result ≡ is_argument answer }
{
    match answer {
        Ok(_) => true,
        Err(FillError::TooLong) => true,
        Err(FillError::NotPresent) => false,
    }
}

// A program, by its name and by what it tells of itself.
#[derive(Clone, Copy)]
pub struct Program<'a> {
    pub name: &'a [u8],
    pub help: &'a [u8],
}

impl Program<'_> {
    // Whether the program was called with an argument; it then tells what it reads and prints.
    pub fn explains<W: Write>(&self, argument: Result<usize, FillError>, to: &mut W) -> bool
        ensures { result ≡ is_argument argument }
    {
        let asked = is_argument(argument);
        if asked {
            // where it can't be told, nothing more is to be done
            let _ = to.write_all(self.help);
        }
        asked
    }

    // What failed is told, if anything did; the reply is the line that was told.
    pub fn ends<W: Write>(&self, to: &mut W, outcome: Result<(), Failure>) -> Option<Text>
        ensures { result ≡ ended self.now.name.now outcome }
    {
        match outcome {
            Ok(()) => None,
            Err(failure) => Some(tell(to, self.name, failure)),
        }
    }
}

// Writes the line that tells of the failure, and answers that line.
pub fn tell<W: Write>(to: &mut W, name: &[u8], failure: Failure) -> Text
    ensures { result ≡ text (told_of name.now failure) }
{
    let line = told(name, failure);
    // where the line can't be told either, nothing more is to be done
    let _ = to.write_all(line.as_bytes());
    line
}

#[tactic(auto, using(text::proofs::Joined::appended_text), unfolding(crate::specs::Telling::told_of))]
fn told(name: &[u8], failure: Failure) -> Text
    ensures { result ≡ text (told_of name.now failure) }
{
    let begun = Text::new().word(name);
    match failure {
        Failure::NotRead => begun.word(b": the input could not be read\n"),
        Failure::NotWritten => begun.word(b": the output could not be written\n"),
    }
}
