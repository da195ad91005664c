// The majority of three copies.
ghost use Rattle.std.specs.Prelude.{◌≡◌};
ghost use Rattle.channel.specs.Vote.{voted};

// Bit by bit, what at least two of the three copies say.
#[tactic(auto, using(crate::proofs::Majority::whole_bytes))]
pub fn vote(a: u8, b: u8, c: u8) -> u8
    ensures { result ≡ voted a b c }
{
    (a & b) | (a & c) | (b & c)
}
