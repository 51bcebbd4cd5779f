//! The calls of a device in memory, some of which are to fail.

ghost use Rattle.std.specs.Prelude.{◌≡◌, ◌≤◌, ◌⊎◌, ◌↔◌, false, IsErr, IfOk, OnOk, OnErr};
ghost use Rattle.xdg_io.specs.Memory.{IsListed, counted, failed, next};
ghost use Rattle.xdg_io.specs.Rose.{Rose};

use crate::Failed;
use std::alloc::Global;
use xdg_base::{List, OutOfMemory};

/// How many calls a device has had and how many of them failed, and which are to fail. The numbers
/// stop at the greatest of their type.
#[derive(Debug, Drop)]
pub struct Calls {
    fails: List<u64>,
    count: u64,
    faults: u64,
}

impl Calls {
    /// No call yet. Those whose numbers are given are to fail, where the first call has the number 1.
    pub(crate) fn new(alloc: Global, fails: &[u64]) -> Result<Calls, OutOfMemory>
        ensures { IfOk result (λ calls. calls ≡ record { fails = fails.now; count = 0; faults = 0 }) }
    {
        let fails = List::from_slice(alloc, fails)?;
        Ok(Calls {
            fails,
            count: 0,
            faults: 0,
        })
    }

    /// Counts a call. It fails where its number is listed, and where the device is not able to do it.
    pub(crate) fn begin(&mut self, able: bool) -> Result<(), Failed>
        ensures exact { IsErr result ↔ (IsListed self.old ⊎ (able ≡ false)) }
        ensures cause { OnErr result (Rose self.old.faults self.new.faults) }
        ensures lasting { self.old.faults ≤ self.new.faults }
        ensures ok { OnOk result (self.new ≡ counted self.old) }
        ensures err { OnErr result (self.new ≡ failed self.old) }
    {
        self.count = self.count.saturating_add(1);
        if !able {
            return Err(self.fail());
        }
        if self.fails.as_slice().contains(&self.count) {
            return Err(self.fail());
        }
        Ok(())
    }

    /// Counts a failure.
    fn fail(&mut self) -> Failed
        ensures rose { Rose self.old.faults self.new.faults }
        ensures lasting { self.old.faults ≤ self.new.faults }
        ensures counted { self.new ≡ record self.old { faults = next self.old.faults } }
    {
        self.faults = self.faults.saturating_add(1);
        Failed
    }
}
