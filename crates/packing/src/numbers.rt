// Numbers of so many bits each: units or octets.
ghost use Rattle.std.specs.Prelude.{◌≡◌, true, false, ◌^◌, length, IfOk, IfErr};
ghost use Rattle.ground.specs.Digits.{all_below};
ghost use Rattle.packing.specs.FormsOfData.{bits_of, grouped};
ghost use Rattle.packing.specs.NumbersOfRefusal.{out_of_range, not_whole};

use crate::Refusal;
use crate::width::Width;

#[derive(Clone, Copy)]
pub(crate) struct Numbers<'a> {
    pub(crate) width: Width,
    pub(crate) all: &'a [u8],
    ghost below: { all_below (2 ^ width.bits) all.now ≡ true },
}

impl<'a> Numbers<'a> {
    #[tactic(auto, using(crate::proofs::Digits::all_of))]
    pub(crate) fn octets(all: &'a [u8]) -> Numbers<'a>
        ensures { (result.width.bits ≡ 8) × (result.all.now ≡ all.now) }
    {
        Numbers {
            width: Width::OCTET,
            all,
        }
    }

    // 12 where some unit has more bits than that.
    #[tactic(auto, using(crate::proofs::Digits::all_listed))]
    pub(crate) fn units(width: Width, all: &'a [u8]) -> Result<Numbers<'a>, Refusal>
        ensures ok { IfOk result (λ s. (out_of_range width.bits all.now ≡ false) × (s.width.bits ≡ width.bits) × (s.all.now ≡ all.now)) }
        ensures err { IfErr result (λ e. (out_of_range width.bits all.now ≡ true) × (e ≡ Refusal.UnitOutOfRange)) }
    {
        if !width.all_fit(all) {
            return Err(Refusal::UnitOutOfRange);
        }
        Ok(Numbers { width, all })
    }

    // Whether the units are not as many as their octets need, or a bit left over is 1.
    pub(crate) fn not_whole(self) -> bool
        ensures { result ≡ not_whole self.entry.width.bits self.entry.all.now }
    {
        let k = self.width.bits;
        let u = self.all.len();
        let n = self.width.octets_in(u);
        let due = self.width.units_for(n);
        if u != due {
            return true;
        }
        // the bits left over are the highest ones of the last unit
        let spare = k * (u % 8) % 8;
        let lowest: usize = 1 << (k - spare);
        match self.all.last() {
            Some(last) => lowest <= usize::from(*last),
            None => false,
        }
    }

    // The bits of the numbers, written into dst as numbers of the width b.
    pub(crate) fn regroup(self, b: Width, dst: &mut [u8])
        ensures { dst.new ≡ grouped b.bits (length dst.old) (bits_of self.entry.width.bits self.entry.all.now) }
    {
        let base = b.values();
        let mut rest = self.all;
        // the bits read and not yet written, and how many they are
        let mut acc: usize = 0;
        let mut have: usize = 0;
        for d in dst.iter_mut() {
            // a `while`, since how many numbers fill one of the other width is no fixed count
            while have < b.bits {
                if let Some((x, tail)) = rest.split_first() {
                    acc += usize::from(*x) << have;
                    have += self.width.bits;
                    rest = tail;
                } else {
                    // past the end the bits are zero
                    have = b.bits;
                }
            }
            // a base is 256 at the most, so what is left fits
            *d = (acc % base) as u8;
            acc /= base;
            have -= b.bits;
        }
    }
}
