//! Sets of kinds of values.

ghost use Rattle.std.specs.Prelude.{⊤, ◌≡◌, ◌<◌, ◌^◌, [], ◌∷◌, codes};
ghost use Rattle.xdg_propcore.specs.Kinds.{entry_kind, attr_kind, edge_kind};

use bitflags::{Flag, Flags, bitflag_items};
use xdg_base::DimId;

/// A set of kinds of values that a box can lose: entries, and for each dimension the values of attributes and those of edge
/// places. Sets are joined by the methods of `Flags`.
#[derive(Clone, Copy, PartialEq, Eq, Debug)]
pub struct Wake(pub u32);

bitflag_items! {
    impl Wake: u32 {
        const ENTRIES = 1;
        const ATTRS_0 = 2;
        const EDGES_0 = 4;
        const ATTRS_1 = 8;
        const EDGES_1 = 16;
        const ATTRS_2 = 32;
        const EDGES_2 = 64;
        const ATTRS_3 = 128;
        const EDGES_3 = 256;
        const ATTRS_4 = 512;
        const EDGES_4 = 1024;
        const ATTRS_5 = 2048;
        const EDGES_5 = 4096;
        const ATTRS_6 = 8192;
        const EDGES_6 = 16384;
        const ATTRS_7 = 32768;
        const EDGES_7 = 65536;
    }
}

impl Flags for Wake {
    type Bits = u32;

    ghost exact = { ⊤ };

    ghost table = { (codes "ENTRIES", 1) ∷ (codes "ATTRS_0", 2) ∷ (codes "EDGES_0", 4) ∷ (codes "ATTRS_1", 8) ∷ (codes "EDGES_1", 16) ∷ (codes "ATTRS_2", 32)
        ∷ (codes "EDGES_2", 64) ∷ (codes "ATTRS_3", 128) ∷ (codes "EDGES_3", 256) ∷ (codes "ATTRS_4", 512) ∷ (codes "EDGES_4", 1024) ∷ (codes "ATTRS_5", 2048)
        ∷ (codes "EDGES_5", 4096) ∷ (codes "ATTRS_6", 8192) ∷ (codes "EDGES_6", 16384) ∷ (codes "ATTRS_7", 32768) ∷ (codes "EDGES_7", 65536) ∷ [] };

    ghost set_of = { λ wake. wake.0 };

    fn flags<'a>() -> &'a [Flag<Wake>] {
        Wake::FLAGS
    }

    fn bits(&self) -> u32 {
        self.0
    }

    fn from_bits_retain(bits: u32) -> Wake {
        Wake(bits)
    }
}

impl Wake {
    /// The set of entries.
    pub fn entries() -> Wake
        ensures { result.0 ≡ 2 ^ entry_kind }
    {
        Wake::ENTRIES
    }

    /// The set of the values of attributes on a dimension, the eighth at most.
    pub fn attrs(dim: DimId) -> Wake
        requires { dim.0 < 8 }
        ensures { result.0 ≡ 2 ^ attr_kind dim.0 }
    {
        Wake(1 << (2 * dim.0 + 1))
    }

    /// The set of the values of edge places on a dimension, the eighth at most.
    pub fn edges(dim: DimId) -> Wake
        requires { dim.0 < 8 }
        ensures { result.0 ≡ 2 ^ edge_kind dim.0 }
    {
        Wake(1 << (2 * dim.0 + 2))
    }
}
