// What the exchange takes from the kept book.
ghost use Rattle.std.specs.Prelude.{◌≡◌};
ghost use Rattle.protocol.specs.Exchange.{originates, entry_of, calls_on_form8, bit1_alone, identifier, left_out};

use book::{Book, Entry, NO_ENTRY, ORIGINATING};

pub fn originates(b: Book) -> bool
    ensures { result ≡ originates b }
{
    b.role == ORIGINATING
}

// The entry at place i; past the last one zeros, as the definition has it.
pub fn entry_of(b: Book, i: u8) -> Entry
    ensures { result ≡ entry_of b i }
{
    b.entries.get(usize::from(i)).copied().unwrap_or(NO_ENTRY)
}

// An originator whose entry has form 8.
fn calls_on_form_8(b: Book) -> bool
    ensures { result ≡ calls_on_form8 b }
{
    let e = entry_of(b, 0);
    originates(b) & (e.form == 8)
}

// Bit 1 of a mask alone.
fn bit_1_alone(mask: u8) -> u8
    ensures { result ≡ bit1_alone mask }
{
    2 * (mask / 2 % 2)
}

// What an end sends as its identifier, and settles the version with: its mask; of an originator whose entry has form 8, bit 1 of its mask
// alone.
#[tactic(auto, unfolding(protocol::specs::Exchange::identifier))]
pub fn identifier(b: Book) -> u8
    ensures { result ≡ identifier b }
{
    if calls_on_form_8(b) {
        bit_1_alone(b.mask)
    } else {
        b.mask
    }
}

// On version 1 a form 8 entry is left out.
pub fn left_out(version: u8, e: Entry) -> bool
    ensures { result ≡ left_out version e }
{
    (version == 1) & (e.form == 8)
}
