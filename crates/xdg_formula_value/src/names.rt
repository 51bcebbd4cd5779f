//! Sets of names.

ghost use Rattle.std.specs.Prelude.{◌≡◌, ◌≢◌, ◌<◌, ℕ, IsTrue, true};
ghost use Rattle.xdg_facts.specs.Rises.{has};

use crate::lost::fewer;
use xdg_base::NodeId;
use xdg_nodeset::NodeSet;

/// Whether a name is one of some.
pub(crate) fn is_named(names: NodeSet, name: u8) -> bool
    ensures { IsTrue result → (name < 128) × (has names name ≡ true) }
{
    if name >= 128 {
        return false;
    }
    names.contains(NodeId(name))
}

/// Those of some names for which nodes stand also under a quantifier that binds a name.
pub(crate) fn outside(names: NodeSet, name: u8) -> NodeSet
    ensures { (n : ℕ) → has result n ≡ true → (n ≢ name) × (has names n ≡ true) }
{
    if name >= 128 {
        return NodeSet::empty();
    }
    fewer(names, name)
}
