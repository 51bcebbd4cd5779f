//! A source in memory that never fails.

ghost use Rattle.std.specs.Prelude.{◌≡◌, ◌<◌, ◌≤◌, ℕ, Some, length, min, take, drop, IsOk, IfOk, OnOk, OnErr};
ghost use Rattle.xdg_io.specs.Left.{Takes, EndsAt};
ghost use Rattle.xdg_io.specs.Rose.{Rose};

use crate::memory_source::copy_front;
use crate::{Failed, Source};
use std::alloc::Global;
use std::marker::Model;
use xdg_base::{Bytes, OutOfMemory};

/// A source of given bytes that never fails. It gives as many at a call as there is room for.
#[derive(Debug, Drop)]
pub struct SafeSource {
    bytes: Bytes,
    at: usize,
}

impl Model for SafeSource {
    ghost use Rattle.std.specs.Prelude.{ℕ, ◌≤◌, List, drop, length};

    ghost Value = { List ℕ };

    ghost view = { λ source. drop source.at source.bytes };

    ghost invariant = { λ source. source.at ≤ length source.bytes };
}

impl SafeSource {
    /// A source that has these bytes left.
    pub fn new(alloc: Global, bytes: &[u8]) -> Result<SafeSource, OutOfMemory>
        ensures { IfOk result (λ source. source ≡ bytes.now) }
    {
        let bytes = Bytes::from_slice(alloc, bytes)?;
        Ok(SafeSource { bytes, at: 0 })
    }
}

impl Source for SafeSource {
    ghost left = { λ source. Some source };

    ghost faults = { λ _. 0 };

    #[tactic(auto, using(crate::proofs::Read::takes_front, xdg_facts::proofs::Numbers::at_most))]
    fn read(&mut self, buffer: &mut [u8]) -> Result<usize, Failed>
        requires { 0 < length buffer.old }
        ensures within { IfOk result (λ count. count ≤ length buffer.new) }
        ensures taken { IfOk result (λ count. Takes (Some self.old) (Some self.new) (take count buffer.new)) }
        ensures end { IfOk result (λ count. EndsAt (Some self.old) count) }
        ensures kept { OnErr result (Some self.new ≡ Some self.old) }
        ensures cause { OnErr result (Rose 0 0) }
        ensures lasting { 0 ≤ 0 }
        ensures quiet { OnOk result (◌≡◌ {A = ℕ} 0 0) }
        ensures able { IsOk result }
        ensures count { IfOk result (λ count. count ≡ min (length buffer.old) (length self.old)) }
        ensures given { IfOk result (λ count. take count buffer.new ≡ take count self.old) }
        ensures left { IfOk result (λ count. self.new ≡ drop count self.old) }
    {
        let (_, left) = self.bytes.as_slice().split_at(self.at);
        let count = copy_front(left, buffer.len(), buffer);
        self.at += count;
        Ok(count)
    }
}
