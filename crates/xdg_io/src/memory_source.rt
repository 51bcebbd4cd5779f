//! A source in memory.

ghost use Rattle.std.specs.Prelude.{◌≡◌, ◌<◌, ◌≤◌, ◌↔◌, Some, length, min, take, drop, IsErr, IfOk, OnOk, OnErr};
ghost use Rattle.xdg_io.specs.Left.{Takes, EndsAt};
ghost use Rattle.xdg_io.specs.Memory.{IsListed, counted, failed};
ghost use Rattle.xdg_io.specs.Rose.{Rose};

use crate::calls::Calls;
use crate::{Failed, Source};
use std::alloc::Global;
use std::marker::Model;
use xdg_base::{Bytes, OutOfMemory};

/// A source of given bytes, which gives few at a call, and fails at given calls.
#[derive(Debug, Drop)]
pub struct MemSource {
    bytes: Bytes,
    at: usize,
    cut: usize,
    calls: Calls,
}

impl Model for MemSource {
    ghost use Rattle.std.specs.Prelude.{◌<◌, ◌≤◌, drop, length};
    ghost use Rattle.xdg_io.specs.Memory.{SourceState};

    ghost Value = { SourceState };

    ghost view = { λ source. record { left = drop source.at source.bytes; cut = source.cut; calls = source.calls } };

    ghost invariant = { λ source. (0 < source.cut) × (source.at ≤ length source.bytes) };
}

impl MemSource {
    /// A source that has these bytes left, gives at most `cut` at a call, and fails at the calls whose
    /// numbers, from 1, stand in `fails`.
    pub fn new(
        alloc: Global,
        bytes: &[u8],
        cut: usize,
        fails: &[u64],
    ) -> Result<MemSource, OutOfMemory>
        requires { 0 < cut }
        ensures { IfOk result (λ source. source ≡ record {
          left = bytes.now;
          cut = cut;
          calls = record { fails = fails.now; count = 0; faults = 0 };
        }) }
    {
        let bytes = Bytes::from_slice(alloc, bytes)?;
        let calls = Calls::new(alloc, fails)?;
        Ok(MemSource {
            bytes,
            at: 0,
            cut,
            calls,
        })
    }
}

impl Source for MemSource {
    ghost left = { λ source. Some source.left };

    ghost faults = { λ source. source.calls.faults };

    #[tactic(auto, using(crate::proofs::Read::takes_front, xdg_facts::proofs::Numbers::ends_exactly))]
    fn read(&mut self, buffer: &mut [u8]) -> Result<usize, Failed>
        requires { 0 < length buffer.old }
        ensures within { IfOk result (λ count. count ≤ length buffer.new) }
        ensures taken { IfOk result (λ count. Takes (Some self.old.left) (Some self.new.left) (take count buffer.new)) }
        ensures end { IfOk result (λ count. EndsAt (Some self.old.left) count) }
        ensures kept { OnErr result (Some self.new.left ≡ Some self.old.left) }
        ensures cause { OnErr result (Rose self.old.calls.faults self.new.calls.faults) }
        ensures lasting { self.old.calls.faults ≤ self.new.calls.faults }
        ensures quiet { OnOk result (self.new.calls.faults ≡ self.old.calls.faults) }
        ensures fails { IsErr result ↔ IsListed self.old.calls }
        ensures count { IfOk result (λ count. count ≡ min self.old.cut (min (length buffer.old) (length self.old.left))) }
        ensures given { IfOk result (λ count. take count buffer.new ≡ take count self.old.left) }
        ensures ok { IfOk result (λ count. self.new ≡ record self.old { left = drop count self.old.left; calls = counted self.old.calls }) }
        ensures err { OnErr result (self.new ≡ record self.old { calls = failed self.old.calls }) }
    {
        self.calls.begin(true)?;
        let (_, left) = self.bytes.as_slice().split_at(self.at);
        let count = copy_front(left, self.cut, buffer);
        self.at += count;
        Ok(count)
    }
}

/// Copies as many of the first bytes as there are, at most `cut` and at most as many as there is room
/// for. Answers how many.
pub(crate) fn copy_front(bytes: &[u8], cut: usize, buffer: &mut [u8]) -> usize
    ensures count { result ≡ min cut (min (length buffer.old) (length bytes.now)) }
    ensures front { take result buffer.new ≡ take result bytes.now }
{
    let count = cut.min(buffer.len().min(bytes.len()));
    buffer[..count].copy_from_slice(&bytes[..count]);
    count
}
