//! Why a device has no answer.

use xdg_base::OutOfMemory;

/// A device could not do what it was asked for. Its count of failures tells that.
#[derive(Clone, Copy, Debug, PartialEq, Eq)]
pub struct Failed;

/// Why a file was not loaded.
#[derive(Clone, Copy, Debug, PartialEq, Eq)]
pub enum LoadStop {
    /// The shelf failed, or there is no file of that name.
    Failed,
    /// The file has more bytes than the limit.
    TooLong {
        /// One more than the limit.
        reached: u64,
    },
    /// No memory was to be had.
    OutOfMemory,
}

/// Why a source was not read to its end.
#[derive(Clone, Copy, Debug, PartialEq, Eq)]
pub enum ReadStop {
    /// The source failed.
    ReadFault,
    /// The source has more bytes than the limit.
    TooLong {
        /// One more than the limit.
        reached: u64,
    },
    /// No memory was to be had.
    OutOfMemory,
}

impl From<OutOfMemory> for LoadStop {
    ghost use Rattle.std.specs.Prelude.{◌≡◌};
    ghost use Rattle.xdg_io.specs.declared.failures.LoadStop.TheVariants as stops;

    ghost from_gives = { λ _ stop. stop ≡ stops.OutOfMemory };

    fn from(_: OutOfMemory) -> LoadStop {
        LoadStop::OutOfMemory
    }
}

impl From<OutOfMemory> for ReadStop {
    ghost use Rattle.std.specs.Prelude.{◌≡◌};
    ghost use Rattle.xdg_io.specs.declared.failures.ReadStop.TheVariants as stops;

    ghost from_gives = { λ _ stop. stop ≡ stops.OutOfMemory };

    fn from(_: OutOfMemory) -> ReadStop {
        ReadStop::OutOfMemory
    }
}

impl From<Failed> for ReadStop {
    ghost use Rattle.std.specs.Prelude.{◌≡◌};
    ghost use Rattle.xdg_io.specs.declared.failures.ReadStop.TheVariants as stops;

    ghost from_gives = { λ _ stop. stop ≡ stops.ReadFault };

    fn from(_: Failed) -> ReadStop {
        ReadStop::ReadFault
    }
}
