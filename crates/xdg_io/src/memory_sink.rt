//! A sink in memory.

ghost use Rattle.std.specs.Prelude.{◌≡◌, ◌<◌, ◌≤◌, ◌⊎◌, ◌↔◌, ◌++◌, ◌-◌, [], Some, length, min, take, vec_len, vec_capacity, ◌+◌, IsErr, IfOk, OnOk, OnErr};
ghost use Rattle.xdg_io.specs.Held.{Appends};
ghost use Rattle.xdg_io.specs.Memory.{IsListed, counted, failed};
ghost use Rattle.xdg_io.specs.Rose.{Rose};

use crate::calls::Calls;
use crate::{Failed, Sink};
use std::alloc::Global;
use std::marker::Model;
use xdg_base::OutOfMemory;

/// A sink that keeps what it takes, as long as there is room. It takes few bytes at a call, and fails
/// at given calls.
#[derive(Debug, Drop)]
pub struct MemSink {
    bytes: Vec<u8>,
    room: usize,
    cut: usize,
    calls: Calls,
}

impl Model for MemSink {
    ghost use Rattle.std.specs.Prelude.{◌<◌, ◌≤◌, vec_len, vec_capacity};
    ghost use Rattle.xdg_io.specs.Memory.{SinkState};

    ghost Value = { SinkState };

    ghost view = { λ sink. record { held = sink.bytes.items; room = sink.room; cut = sink.cut; calls = sink.calls } };

    ghost invariant = { λ sink. (0 < sink.cut) × (vec_len sink.bytes ≤ sink.room) × (sink.room ≤ vec_capacity sink.bytes) };
}

impl MemSink {
    /// A sink without bytes that has room for `room` of them, takes at most `cut` at a call, and fails
    /// at the calls whose numbers, from 1, stand in `fails`. The room is taken at once.
    pub fn new(
        alloc: Global,
        room: usize,
        cut: usize,
        fails: &[u64],
    ) -> Result<MemSink, OutOfMemory>
        requires { 0 < cut }
        ensures { IfOk result (λ sink. sink ≡ record {
          held = [];
          room = room;
          cut = cut;
          calls = record { fails = fails.now; count = 0; faults = 0 };
        }) }
    {
        let bytes = Vec::with_capacity(alloc, room)?;
        let calls = Calls::new(alloc, fails)?;
        Ok(MemSink {
            bytes,
            room,
            cut,
            calls,
        })
    }

    /// What the sink took.
    pub fn bytes(&self) -> &[u8]
        ensures { result.now ≡ self.now.held }
    {
        self.bytes.as_slice()
    }
}

impl Sink for MemSink {
    ghost held = { λ sink. Some sink.held };

    ghost faults = { λ sink. sink.calls.faults };

    fn write(&mut self, piece: &[u8]) -> Result<usize, Failed>
        requires { 0 < length piece.now }
        ensures some { IfOk result (λ count. 0 < count) }
        ensures within { IfOk result (λ count. count ≤ length piece.now) }
        ensures added { IfOk result (λ count. Appends (Some self.old.held) (Some self.new.held) (take count piece.now)) }
        ensures kept { OnErr result (Some self.new.held ≡ Some self.old.held) }
        ensures cause { OnErr result (Rose self.old.calls.faults self.new.calls.faults) }
        ensures lasting { self.old.calls.faults ≤ self.new.calls.faults }
        ensures quiet { OnOk result (self.new.calls.faults ≡ self.old.calls.faults) }
        ensures fails { IsErr result ↔ (IsListed self.old.calls ⊎ (self.old.room ≤ length self.old.held)) }
        ensures count { IfOk result (λ count. count ≡ min self.old.cut (min (length piece.now) (self.old.room - length self.old.held))) }
        ensures ok { IfOk result (λ count. self.new ≡ record self.old { held = self.old.held ++ take count piece.now; calls = counted self.old.calls }) }
        ensures err { OnErr result (self.new ≡ record self.old { calls = failed self.old.calls }) }
    {
        let free = self.room - self.bytes.len();
        self.calls.begin(free > 0)?;
        let count = self.cut.min(piece.len().min(free));
        push_front(&mut self.bytes, piece, count);
        Ok(count)
    }
}

/// Adds the first bytes of a piece, so many of them, for which there is room.
fn push_front(bytes: &mut Vec<u8>, piece: &[u8], count: usize)
    requires there { count ≤ length piece.now }
    requires room { vec_len bytes.old + count ≤ vec_capacity bytes.old }
    ensures added { bytes.new.items ≡ bytes.old.items ++ take count piece.now }
    ensures capacity { vec_capacity bytes.old ≤ vec_capacity bytes.new }
{
    let (front, _) = piece.split_at(count);
    let added = bytes.extend_from_slice(front);
    prove!(added.is_ok());
}
