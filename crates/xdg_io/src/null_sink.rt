//! A sink that keeps nothing and never fails.

ghost use Rattle.std.specs.Prelude.{◌≡◌, ◌<◌, ◌≤◌, ℕ, List, Option, None, Ok, length, take, IfOk, OnOk, OnErr};
ghost use Rattle.xdg_io.specs.Held.{Appends};
ghost use Rattle.xdg_io.specs.Rose.{Rose};

use crate::{Failed, Sink};

/// A sink that never fails. It takes all that it is given and drops it, and tells nothing of it.
#[derive(Clone, Copy, Debug)]
pub struct NullSink;

impl NullSink {
    /// The sink. It takes no memory.
    pub fn new() -> NullSink {
        NullSink
    }
}

impl Sink for NullSink {
    ghost held = { λ _. None };

    ghost faults = { λ _. 0 };

    fn write(&mut self, piece: &[u8]) -> Result<usize, Failed>
        requires { 0 < length piece.now }
        ensures some { IfOk result (λ count. 0 < count) }
        ensures within { IfOk result (λ count. count ≤ length piece.now) }
        ensures added { IfOk result (λ count. Appends None None (take count piece.now)) }
        ensures kept { OnErr result (◌≡◌ {A = Option (List ℕ)} None None) }
        ensures cause { OnErr result (Rose 0 0) }
        ensures lasting { 0 ≤ 0 }
        ensures quiet { OnOk result (◌≡◌ {A = ℕ} 0 0) }
        ensures whole { result ≡ Ok (length piece.now) }
    {
        Ok(piece.len())
    }
}
