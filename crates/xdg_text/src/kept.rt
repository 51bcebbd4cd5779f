//! A sink in memory.

ghost use Rattle.std.specs.Prelude.{◌≡◌, Some, []};

use std::alloc::Global;
use xdg_base::Bytes;
use xdg_io::{Failed, Sink};

/// A sink that keeps all that it takes, and fails where memory runs out.
#[derive(Drop)]
pub struct Kept {
    bytes: Bytes,
    faults: u64,
}

impl Sink for Kept {
    ghost held = { λ sink. Some sink.bytes };

    ghost faults = { λ sink. sink.faults };

    fn write(&mut self, piece: &[u8]) -> Result<usize, Failed> {
        match self.bytes.extend(piece) {
            Ok(()) => Ok(piece.len()),
            Err(_) => {
                self.faults = self.faults.saturating_add(1);
                Err(Failed)
            }
        }
    }
}

impl Kept {
    /// A sink that holds nothing yet. It takes no memory.
    pub fn new(alloc: Global) -> Kept
        ensures { result.bytes ≡ [] }
    {
        Kept {
            bytes: Bytes::new(alloc),
            faults: 0,
        }
    }

    /// What it holds.
    pub fn into_bytes(self) -> Bytes
        ensures { result ≡ self.bytes }
    {
        let Kept { bytes, faults: _ } = self;
        bytes
    }
}
