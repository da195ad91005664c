// A script: a 16-bit big-endian book length, the book, then three bytes a slot.
ghost use Rattle.std.specs.Prelude.{◌≡◌, ◌↔◌, ◌/◌, ◌%◌, ◌≤◌, ◌<◌, false, eqb, length, get_or, IsTrue, IsNone, IfSome};
ghost use Rattle.std.specs.List.{list_any};
ghost use Rattle.script.specs.Input.{most_bytes, book_in, slots_in, is_stray, slots_fault, script_fault, drive_of};

use channel::byte::Leads;
use opened::drive::drive_with;
use protocol::Drive;

const MOST_BYTES: usize = 65535;

fn is_on(flags: u8, weight: u8) -> bool
    requires { 0 < weight }
    ensures { result ≡ eqb (flags / weight % 2) 1 }
{
    flags / weight % 2 == 1
}

// Whether bit 6 or 7 is on.
fn is_stray(flags: u8) -> bool
    ensures { result ≡ is_stray flags }
{
    is_on(flags, 64) | is_on(flags, 128)
}

// What the second and the third byte of a slot give it.
#[tactic(auto, unfolding(crate::specs::Input::drive_of))]
pub(crate) fn drive(flags: u8, unit: u8) -> Drive
    ensures { result ≡ drive_of flags unit }
{
    // four bits, as `channel` lays those of an Sd from its upper ones: one function for both would be public, with a promise and edits
    let leads = Leads {
        s0: is_on(flags, 1),
        s1: is_on(flags, 2),
        s2: is_on(flags, 4),
        s3: is_on(flags, 8),
    };
    drive_with(leads, is_on(flags, 16), is_on(flags, 32).then_some(unit))
}

// Whether one of the slots has bit 6 or 7 on.
fn has_stray(slots: &[[u8; 3]]) -> bool
    ensures { result ≡ list_any (λ s. is_stray (get_or s 1 0)) slots.now }
{
    slots.iter().any(|[_, flags, _]| is_stray(*flags))
}

// Whether the slots are cut, or one of them has bit 6 or 7 on.
#[tactic(auto, using(crate::proofs::Slots::fault_by_slots))]
fn slots_fault(slots: &[u8]) -> bool
    ensures { result ≡ slots_fault slots.now }
{
    let (slots, rest) = slots.as_chunks::<3>();
    !rest.is_empty() || has_stray(slots)
}

// The parts of a script without fault.
#[derive(Clone, Copy)]
pub(crate) struct Script<'a> {
    pub(crate) book: &'a [u8],
    pub(crate) slots: &'a [u8],
    ghost short: { length slots.now ≤ most_bytes },
}

// None for a script too large, or cut inside the length, the book or a slot, or with a slot with bit 6 or 7 on.
#[tactic(auto, unfolding(crate::specs::Input::script_fault))]
pub(crate) fn script_in(s: &[u8]) -> Option<Script<'_>>
    ensures fault { IsNone result ↔ IsTrue (script_fault s.now) }
    ensures parts { IfSome result (λ p. (p.book.now ≡ book_in s.now) × (p.slots.now ≡ slots_in s.now)) }
{
    if MOST_BYTES < s.len() {
        return None;
    }
    let [high, low, rest @ ..] = s else {
        return None;
    };
    let book_length = usize::from(u16::from_be_bytes([*high, *low]));
    if rest.len() < book_length {
        return None;
    }
    let (book, slots) = rest.split_at(book_length);
    if slots_fault(slots) {
        return None;
    }
    Some(Script { book, slots })
}
