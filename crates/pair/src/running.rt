// The joined pair, run slot by slot until both ends are open or refused.
ghost use Rattle.std.specs.Prelude.{◌≡◌, ◌<◌, ◌≤◌, List, [], ◌∷◌, ◌++◌, ℕ, drop, replicate};
ghost use Rattle.std.specs.NonZero.{non_zero_u8_get};
ghost use Rattle.channel.specs.Bytes.{sgidle};
ghost use Rattle.protocol.specs.Slot.{outcome_of};
ghost use Rattle.protocol.specs.Joined.{idle, byte_of, arriving, joined, joined_slot};
ghost use Rattle.pair.specs.Ring.{around};
ghost use Rattle.pair.specs.Running.{has_concluded, ran_for};

use channel::byte::ChannelByte;
use endpoint::slot::{outcome, slot};
use opened::drive::idle;
use protocol::{Endpoint, Outcome, Reply};
use std::marker::Model;
use std::num::NonZeroU8;

const LONGEST_DELAY: usize = 255;

// The bytes on their way to an end, in a ring of as many places as the delay has slots: the one that arrives next stands at the place next.
// An array as long as the longest delay: nothing is allocated, and nothing can fail.
#[derive(Drop)]
pub(crate) struct Ring {
    bytes: [u8; LONGEST_DELAY],
    next: usize,
    delay: usize,
}

// Clauses see the bytes, the next to arrive first.
impl Model for Ring {
    ghost Value = { List ℕ };

    ghost view = { λ r. around r.delay r.next r.bytes };

    ghost invariant = { λ r. (r.next < r.delay) × (r.delay ≤ 255) };
}

impl Ring {
    // Before the first byte of the other end arrives, 7F arrives.
    fn new(delay: NonZeroU8) -> Self
        ensures { result ≡ replicate (non_zero_u8_get delay) sgidle }
    {
        Ring {
            bytes: [ChannelByte::SGIDLE.0; LONGEST_DELAY],
            next: 0,
            delay: usize::from(delay.get()),
        }
    }

    fn arriving(&self) -> u8
        ensures { result ≡ arriving self.now }
    {
        self.bytes[self.next]
    }

    // The byte that is sent takes the place of the one that has arrived.
    fn send(&mut self, byte: u8)
        ensures { self.new ≡ drop 1 self.old ++ byte ∷ [] }
    {
        self.bytes[self.next] = byte;
        self.next = if self.next + 1 < self.delay {
            self.next + 1
        } else {
            0
        };
    }
}

// Both ends, and the bytes on their way back to O and forth to A.
#[derive(Drop)]
pub(crate) struct Pair {
    pub(crate) o: Endpoint,
    pub(crate) a: Endpoint,
    back: Ring,
    forth: Ring,
}

fn byte_of(r: Reply) -> u8
    ensures { result ≡ byte_of r }
{
    match r {
        Ok(passed) => passed.sent.0,
        Err(_) => ChannelByte::SGIDLE.0,
    }
}

// Open or refused.
fn has_concluded(e: Endpoint) -> bool
    ensures { result ≡ has_concluded (outcome_of e) }
{
    !matches!(outcome(e), Outcome::Exchanging)
}

impl Pair {
    ghost use Rattle.pair.specs.Rings.{pair_in};

    #[tactic(auto, unfolding(protocol::specs::Joined::joined))]
    pub(crate) fn new(o: Endpoint, a: Endpoint, delay: NonZeroU8) -> Self
        ensures { pair_in result ≡ joined o a (non_zero_u8_get delay) }
    {
        Pair {
            o,
            a,
            back: Ring::new(delay),
            forth: Ring::new(delay),
        }
    }

    // Each end hears the byte that arrives, and the byte that it sends goes on its way to the other.
    #[tactic(auto, unfolding(protocol::specs::Joined::joined_slot))]
    fn pass_slot(&mut self)
        ensures { pair_in self.new ≡ joined_slot idle idle (pair_in self.old) }
    {
        let x = slot(self.o, ChannelByte(self.back.arriving()), idle());
        let y = slot(self.a, ChannelByte(self.forth.arriving()), idle());
        self.o = x.state;
        self.a = y.state;
        self.back.send(byte_of(y.reply));
        self.forth.send(byte_of(x.reply));
    }

    // Until both are open or refused, or for so many slots.
    #[tactic(auto, using(crate::proofs::UntilConcluded::run_steps))]
    pub(crate) fn run(&mut self, most: u16)
        ensures { pair_in self.new ≡ ran_for most (pair_in self.old) }
    {
        for _ in 0..most {
            if has_concluded(self.o) & has_concluded(self.a) {
                return;
            }
            self.pass_slot();
        }
    }
}
