// The version that two masks share.
ghost use Rattle.std.specs.Prelude.{◌≡◌};
ghost use Rattle.channel.specs.Versions.{shared};
ghost use Rattle.channel.specs.Answers.{says_shared, shared_in_numbers};

// Both masks are ANDed; the highest set bit wins, bit 0 being version 1. None where none is set: no version, 21.
#[tactic(auto, using(crate::proofs::HighestBit::none_has, crate::proofs::HighestBit::top_has), unfolding(crate::specs::Versions::shared))]
pub fn shared_version(a: u8, b: u8) -> Option<u8>
    ensures value { result ≡ shared a b }
    ensures says { says_shared result ≡ shared_in_numbers a b }
{
    // the library counts bits in u32: 7 at the most, which fits
    match (a & b).checked_ilog2() {
        Some(top) => Some(top as u8 + 1),
        None => None,
    }
}
