// A text put into a buffer.
ghost use Rattle.std.specs.Prelude.{◌≡◌, ◌+◌};
ghost use Rattle.std.proofs.Math.Seq.{paste};
ghost use Rattle.text.specs.Output.{put_count};

use crate::{ROOM, Text};

impl Text {
    // The text goes into out from the place at on, as much of it as there is room for, none beyond the end; the reply is the place past it.
    #[tactic(auto, using(crate::proofs::Writing::put_nothing, crate::proofs::Writing::put_counted, crate::proofs::Writing::put_pasted))]
    pub fn put(self, out: &mut [u8], at: usize) -> usize
        ensures value { result ≡ at + put_count self at out.old }
        ensures out_after { out.new ≡ paste out.old at self.bytes (put_count self at out.old) }
    {
        if out.len() < at {
            return at;
        }
        let length = usize::from(self.length).min(ROOM);
        let n = length.min(out.len() - at);
        out[at..at + n].copy_from_slice(&self.bytes[..n]);
        at + n
    }
}
