//! How a principle links.

ghost use Rattle.std.specs.Prelude.{◌≡◌};
ghost use Rattle.xdg_plink.specs.Ways.{way_of};

use xdg_problem::{Linking, Principle, linking_of};

/// How a principle links. One that asks for no edge is taken for one that needs no table.
pub(crate) fn way_of(principle: &Principle) -> Linking
    ensures { result ≡ way_of principle.now }
{
    match linking_of(principle) {
        Some(way) => way,
        None => Linking::End,
    }
}
