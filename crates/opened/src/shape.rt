// How an entry's data is laid on a version, and how many bytes go before it.
ghost use Rattle.std.specs.Prelude.{◌≡◌, ◌≤◌};
ghost use Rattle.protocol.specs.Opened.{shape_of, has_unit, is_word, pair_form, has_pair, opening_bytes};

use book::Entry;
use channel::unit;
use channel::unit::Form;
use protocol::Shape;

// The first 16 bytes sent are Sd; in forms 7 and 8 the pair 05 0D follows.
pub const OPENING_SD: u8 = 16;

// How an entry's data is laid on a version.
#[tactic(auto, unfolding(protocol::specs::Opened::shape_of))]
pub fn shape_of(e: Entry, version: u8) -> Shape
    ensures { result ≡ shape_of e version }
{
    match (e.form, version) {
        (0, _) => Shape::Word(e.w),
        (6, _) => Shape::Unit(Form::Six),
        (7, 1) => Shape::Unit(Form::SevenV1),
        (7, _) => Shape::Unit(Form::SevenV2),
        _ => Shape::Unit(Form::Eight),
    }
}

// Whether the shape has that unit.
#[tactic(auto, unfolding(protocol::specs::Opened::has_unit))]
pub fn has_unit(s: Shape, u: u8) -> bool
    ensures { result ≡ has_unit s u }
{
    match s {
        Shape::Word(w) => unit::word_fits(w, u),
        Shape::Unit(f) => unit::fits(f, u),
    }
}

pub fn is_word(s: Shape) -> bool
    ensures { result ≡ is_word s }
{
    matches!(s, Shape::Word(_))
}

// Forms 7 and 8 have the pair after the first 16 bytes.
pub fn pair_form(f: Form) -> bool
    ensures { result ≡ pair_form f }
{
    matches!(f, Form::SevenV1 | Form::SevenV2 | Form::Eight)
}

pub fn has_pair(s: Shape) -> bool
    ensures { result ≡ has_pair s }
{
    matches!(s, Shape::Unit(f) if pair_form(f))
}

// How many bytes go before data.
pub fn opening_bytes(s: Shape) -> u8
    ensures { (result ≡ opening_bytes s) × (result ≤ 18) }
{
    if has_pair(s) {
        OPENING_SD + 2
    } else {
        OPENING_SD
    }
}
