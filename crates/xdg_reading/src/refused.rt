//! Why a text is no analysis, or shows none.

ghost use Rattle.std.specs.Prelude.{◌≡◌};

use xdg_base::OutOfMemory;

/// Why a text is no analysis, or shows none.
#[derive(Clone, Copy, Debug)]
pub(crate) enum Refused {
    /// No memory was to be had.
    Memory,
    /// The line at this place offends first.
    At(u32),
}

impl From<OutOfMemory> for Refused {
    ghost use Rattle.xdg_reading.specs.declared.refused.Refused.TheVariants.{Memory};

    ghost from_gives = { λ _ refused. refused ≡ Memory };

    fn from(_: OutOfMemory) -> Refused {
        Refused::Memory
    }
}
