// A short text, built by value.
#![tactic(auto)]

ghost use Rattle.std.specs.Prelude.{◌≡◌, [], ◌<◌, take};
ghost use Rattle.text.specs.Text.{text, pushed, appended};
ghost use Rattle.text.specs.Numerals.{digit, place_of, decimal_of, hex_digit, hex_of, parameters_of};

use book::Entry;

pub mod output; // output.rt: a text put into a buffer

pub const ROOM: usize = 64;

// A short text, from its start; zeros past it. An array with its length beside it, since a String allocates and what is said here can't
// fail; nothing ties the two, since `put` answers for any length, above 64 too.
#[derive(Clone, Copy, PartialEq, Eq, Debug)]
pub struct Text {
    pub bytes: [u8; ROOM],
    pub length: u8,
}

impl Text {
    #[tactic(auto, unfolding(crate::specs::Text::text))]
    pub fn new() -> Text
        ensures { result ≡ text [] }
    {
        Text {
            bytes: [0; ROOM],
            length: 0,
        }
    }

    // The text's characters; of a length above 64, all 64.
    pub fn as_bytes(&self) -> &[u8]
        ensures { result.now ≡ take self.now.length self.now.bytes }
    {
        &self.bytes[..usize::from(self.length).min(ROOM)]
    }

    // Where there is no room the text stays as it is.
    #[tactic(auto, unfolding(crate::specs::Text::pushed))]
    pub fn push(mut self, c: u8) -> Text
        ensures { result ≡ pushed self c }
    {
        let n = usize::from(self.length);
        if n < ROOM {
            self.bytes[n] = c;
            self.length += 1;
        }
        self
    }

    #[tactic(auto, using(crate::proofs::Writing::word_next, crate::proofs::Writing::word_end))]
    pub fn word(self, w: &[u8]) -> Text
        ensures { result ≡ appended self w.now }
    {
        let mut written = self;
        for &c in w {
            written = written.push(c);
        }
        written
    }

    // The digit of one place; a leading one is left out.
    #[tactic(auto, using(crate::proofs::Writing::place_left_out, crate::proofs::Writing::place_written))]
    fn place(self, n: u16, unit: u16) -> Text
        requires { 0 < unit }
        ensures { result ≡ appended self (place_of n unit) }
    {
        if n < unit {
            return self;
        }
        self.push(digit(n / unit % 10))
    }

    // Without leading zeros. By hand, as `hex` is: `write!` promises what it wrote only where it returns Ok, and this can't fail.
    #[tactic(auto, using(crate::proofs::Writing::all_places))]
    pub fn decimal(self, n: u16) -> Text
        ensures { result ≡ appended self (decimal_of n) }
    {
        self.place(n, 10000)
            .place(n, 1000)
            .place(n, 100)
            .place(n, 10)
            .push(digit(n % 10))
    }

    // Two upper-case digits.
    #[tactic(auto, using(crate::proofs::Writing::two_digits))]
    pub fn hex(self, b: u8) -> Text
        ensures { result ≡ appended self (hex_of b) }
    {
        self.push(hex_digit(b / 16)).push(hex_digit(b % 16))
    }

    // The five parameters of a profile, each as two hex digits.
    #[tactic(auto, using(crate::proofs::Joined::appended_append), unfolding(crate::specs::Numerals::parameters_of))]
    pub fn parameters(self, p: Entry) -> Text
        ensures { result ≡ appended self (parameters_of p) }
    {
        self.hex(p.p0).hex(p.p1).hex(p.p2).hex(p.p3).hex(p.p4)
    }
}

// One digit, which fits a byte.
fn digit(d: u16) -> u8
    requires { d < 10 }
    ensures { result ≡ digit d }
{
    b'0' + d as u8
}

fn hex_digit(d: u8) -> u8
    requires { d < 16 }
    ensures { result ≡ hex_digit d }
{
    match d {
        0..=9 => b'0' + d,
        _ => b'A' + (d - 10),
    }
}
