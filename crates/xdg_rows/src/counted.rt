//! Devices whose calls are counted.

ghost use Rattle.std.specs.Prelude.{◌≡◌};

use std::alloc::Global;
use xdg_io::{Failed, LoadStop, Shelf, Sink, Source};

/// A device, and how often it was called. The count stops at the greatest number of its type.
#[derive(Drop)]
pub struct Counted<D> {
    pub device: D,
    pub calls: u64,
}

impl<D> Counted<D> {
    /// A device that was not called.
    pub fn new(device: D) -> Counted<D> {
        Counted { device, calls: 0 }
    }

    /// Counts a call.
    fn count(&mut self)
        ensures { self.new.device ≡ self.old.device }
    {
        self.calls = self.calls.saturating_add(1);
    }
}

impl<H: Shelf> Shelf for Counted<H> {
    ghost files = { λ counted. H.files counted.device };

    ghost faults = { λ counted. H.faults counted.device };

    fn load(&mut self, alloc: Global, name: &str, limit: u64) -> Result<Vec<u8>, LoadStop> {
        self.count();
        self.device.load(alloc, name, limit)
    }
}

impl<S: Source> Source for Counted<S> {
    ghost left = { λ counted. S.left counted.device };

    ghost faults = { λ counted. S.faults counted.device };

    fn read(&mut self, buffer: &mut [u8]) -> Result<usize, Failed> {
        self.count();
        self.device.read(buffer)
    }
}

impl<K: Sink> Sink for Counted<K> {
    ghost held = { λ counted. K.held counted.device };

    ghost faults = { λ counted. K.faults counted.device };

    fn write(&mut self, piece: &[u8]) -> Result<usize, Failed> {
        self.count();
        self.device.write(piece)
    }
}
