// The kind of a received byte during the exchange.
ghost use Rattle.std.specs.Prelude.{◌≡◌};
ghost use Rattle.channel.specs.Kinds.{kind_number, leads_in, kind_from, kind_of};
ghost use Rattle.channel.specs.Answers.{says_kind, kind_in_numbers};

use crate::byte::{ChannelByte, Leads};
use crate::kind_table::row;

// What a received byte is during the exchange. B8 is ignored.
#[derive(Clone, Copy, PartialEq, Eq, Debug)]
pub enum Kind {
    Sgvi,
    // Sgp0 to Sgp4
    Sgp(u8),
    Sgr,
    // a nibble
    Dl(u8),
    Dh(u8),
    // the leads and BK
    Sd(Leads, bool),
    // Sgss, Sgidle, Sgdis and unassigned bytes
    Other,
}

fn kind_number(b: u8) -> u8
    ensures { result ≡ kind_number b }
{
    let row = row(b / 16);
    row[usize::from(b % 16)]
}

// The leads that an Sd byte carries, in its upper bits; a script's byte has them in its lower ones. One function for both would be public,
// with a promise and edits, for four lines.
#[tactic(auto, unfolding(crate::specs::Kinds::leads_in))]
fn leads_in(b: u8) -> Leads
    ensures { result ≡ leads_in b }
{
    Leads {
        s0: b / 16 % 2 == 1,
        s1: b / 32 % 2 == 1,
        s2: b / 64 % 2 == 1,
        s3: b / 128 % 2 == 1,
    }
}

// The kind of a number, with what the byte carries.
#[tactic(auto, using(crate::proofs::KindTable::nibble_is), unfolding(crate::specs::Kinds::kind_from))]
fn kind_from(n: u8, b: u8) -> Kind
    ensures { result ≡ kind_from n b }
{
    match n {
        1 => Kind::Dl(b / 16),
        2 => Kind::Dh(b / 16),
        3 => Kind::Sd(leads_in(b), b / 8 % 2 == 1),
        4 => Kind::Sgvi,
        5..=9 => Kind::Sgp(n - 5),
        10 => Kind::Sgr,
        _ => Kind::Other,
    }
}

impl ChannelByte {
    #[tactic(auto, using(crate::proofs::Said::kind_said), unfolding(crate::specs::Kinds::kind_of))]
    pub fn kind(self) -> Kind
        ensures value { result ≡ kind_of self.0 }
        ensures says { says_kind result ≡ kind_in_numbers self.0 }
    {
        kind_from(kind_number(self.0), self.0)
    }
}
