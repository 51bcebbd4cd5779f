//! Where bytes are written to.

ghost use Rattle.std.specs.Prelude.{◌≡◌, ◌∷◌, [], Option, ◌<◌, ◌≤◌, ℕ, List, length, take, IfOk, OnOk, OnErr};
ghost use Rattle.xdg_io.specs.Held.{Appends};
ghost use Rattle.xdg_io.specs.Rose.{Rose};
ghost use Rattle.xdg_io.specs.Texts.{WritesText};

use crate::Failed;

/// Takes bytes in their order, some at each call.
pub trait Sink {
    /// The bytes that were taken, where they are told.
    ghost held: { Self → Option (List ℕ) };

    /// How often the sink has failed. It stops at the greatest number of its type.
    ghost faults: { Self → ℕ };

    /// Takes the first bytes of a piece that is not empty, and answers how many, which is at least 1.
    /// After a failure nothing is taken.
    fn write(&mut self, piece: &[u8]) -> Result<usize, Failed>
        requires { 0 < length piece.now }
        ensures some { IfOk result (λ count. 0 < count) }
        ensures within { IfOk result (λ count. count ≤ length piece.now) }
        ensures added { IfOk result (λ count. Appends (held self.old) (held self.new) (take count piece.now)) }
        ensures kept { OnErr result (held self.new ≡ held self.old) }
        ensures cause { OnErr result (Rose (faults self.old) (faults self.new)) }
        ensures lasting { faults self.old ≤ faults self.new }
        ensures quiet { OnOk result (faults self.new ≡ faults self.old) };

    /// Takes a byte behind which more is written at once, so a sink that hands on whole lines may keep this one till then.
    fn keep(&mut self, byte: u8) -> Result<(), Failed>
        ensures { WritesText result (held self.old) (held self.new) (faults self.old) (faults self.new) (byte ∷ []) }
    {
        self.write(&[byte])?;
        Ok(())
    }
}

/// Writes a whole piece, by as many calls as the sink wants. An empty piece makes no call. It takes
/// no memory.
#[tactic(auto, using(crate::proofs::Written::written_steps))]
pub fn write_all<K: Sink>(sink: &mut K, piece: &[u8]) -> Result<(), Failed>
    ensures { WritesText result (K.held sink.old) (K.held sink.new) (K.faults sink.old) (K.faults sink.new) piece.now }
{
    let mut rest = piece;
    while !rest.is_empty() {
        let count = sink.write(rest)?;
        let (_, later) = rest.split_at(count);
        rest = later;
    }
    Ok(())
}
