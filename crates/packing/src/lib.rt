// Octets packed into units of k bits, least bit first, and units unpacked into octets, for the forms k = 6, 7 and 8.
#![tactic(auto)]

mod numbers;
mod width;

ghost use Rattle.std.specs.Prelude.{length};
ghost use Rattle.packing.specs.FormsOfData.{bits_of, grouped};
ghost use Rattle.packing.specs.NumbersOfRefusal.{Answer, room_refusal, Packs, Unpacks};

use numbers::Numbers;
use width::Width;

// Why nothing is packed or unpacked. Where it is, so many units or octets stand in the buffer from the named place on.
#[derive(Clone, Copy, PartialEq, Eq, Debug)]
pub enum Refusal {
    // 15: form not 6, 7, 8
    FormNotPacked,
    // 12: unit out of range
    UnitOutOfRange,
    // 16: the units are not as many as their octets need, or a bit left over is 1
    NotWholeOctets,
    // 14: named place beyond the buffer's end, or fewer places from it on than are needed
    NoRoom,
}

// Packs the octets src into units of form bits, which go into out from the place at on. The form is a number, and the place stands beside
// the buffer, here and below, since any form and any place is answered: 15, 14.
#[tactic(auto, unfolding(crate::specs::NumbersOfRefusal::pack_refusal))]
pub fn pack(form: u8, src: &[u8], out: &mut [u8], at: usize) -> Result<usize, Refusal>
    ensures { Packs form src.now out.old at result out.new }
{
    let k = Width::of_form(form)?;
    let n = k.units_for(src.len());
    write(Numbers::octets(src), k, n, out, at)
}

// Unpacks units of form bits into octets, which go into out from the place at on.
#[tactic(auto, unfolding(crate::specs::NumbersOfRefusal::unpack_refusal))]
pub fn unpack(form: u8, units: &[u8], out: &mut [u8], at: usize) -> Result<usize, Refusal>
    ensures { Unpacks form units.now out.old at result out.new }
{
    let k = Width::of_form(form)?;
    let numbers = Numbers::units(k, units)?;
    if numbers.not_whole() {
        return Err(Refusal::NotWholeOctets);
    }
    let n = k.octets_in(units.len());
    write(numbers, Width::OCTET, n, out, at)
}

// Writes n numbers of the width b, made of the bits of src, into out from the place at, or tells that there is no room.
fn write(src: Numbers, b: Width, n: usize, out: &mut [u8], at: usize) -> Result<usize, Refusal>
    ensures { Answer (room_refusal n (length out.old) at) (grouped b.bits n (bits_of src.entry.width.bits src.entry.all.now)) out.old at result out.new }
{
    if out.len() < at || out.len() - at < n {
        return Err(Refusal::NoRoom);
    }
    let end = at + n;
    src.regroup(b, &mut out[at..end]);
    Ok(n)
}
