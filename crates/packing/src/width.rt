// How many bits a number has, and how many units of so many bits octets fill.
ghost use Rattle.std.specs.Prelude.{◌≡◌, true, false, ◌^◌, ◌<◌, ◌≤◌, ltb, IfOk, IfErr};
ghost use Rattle.std.specs.List.{list_all};
ghost use Rattle.packing.specs.FormsOfData.{units_for, octets_in};
ghost use Rattle.packing.specs.NumbersOfRefusal.{not_packed};

use crate::Refusal;

// 6, 7 or 8 bits: those of a unit of the forms that are packed, and of an octet.
#[derive(Clone, Copy)]
pub(crate) struct Width {
    pub(crate) bits: usize,
    ghost in_range: { (6 ≤ bits) × (bits ≤ 8) },
}

impl Width {
    pub(crate) const OCTET: Width = Width { bits: 8 };

    // The width of a form's units; 15 where the form is not packed.
    pub(crate) fn of_form(form: u8) -> Result<Width, Refusal>
        ensures ok { IfOk result (λ k. (not_packed form ≡ false) × (k.bits ≡ form)) }
        ensures err { IfErr result (λ e. (not_packed form ≡ true) × (e ≡ Refusal.FormNotPacked)) }
    {
        match form {
            6..=8 => Ok(Width {
                bits: usize::from(form),
            }),
            _ => Err(Refusal::FormNotPacked),
        }
    }

    // How many values a number of so many bits has.
    #[tactic(auto, using(crate::proofs::Shift::one_shl))]
    pub(crate) fn values(self) -> usize
        ensures { result ≡ 2 ^ self.bits }
    {
        1 << self.bits
    }

    // Whether none of the numbers has more bits.
    pub(crate) fn all_fit(self, all: &[u8]) -> bool
        ensures { result ≡ list_all (λ x. ltb x (2 ^ self.bits)) all.now }
    {
        let values = self.values();
        all.iter().all(|x| usize::from(*x) < values)
    }

    // ceil (8 n / k), with no product that overflows
    #[tactic(auto, using(crate::proofs::Counts::units_split))]
    pub(crate) fn units_for(self, n: usize) -> usize
        requires { n < 2 ^ 63 }
        ensures { result ≡ units_for self.bits n }
    {
        let k = self.bits;
        8 * (n / k) + (8 * (n % k) + (k - 1)) / k
    }

    // floor (k u / 8), with no product that overflows
    #[tactic(auto, using(crate::proofs::Counts::octets_split))]
    pub(crate) fn octets_in(self, u: usize) -> usize
        ensures { result ≡ octets_in self.bits u }
    {
        let k = self.bits;
        k * (u / 8) + k * (u % 8) / 8
    }
}
