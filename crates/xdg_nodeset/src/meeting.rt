//! Sets that meet, and a set that grows by way of a node.

ghost use Rattle.std.specs.Prelude.{◌≡◌, ◌<◌, ◌↔◌, ◌⊎◌, ℕ, true, IsTrue};
ghost use Rattle.xdg_facts.specs.Rises.{has};
ghost use Rattle.xdg_nodeset.specs.Tables.{Meet};

use crate::set::NodeSet;
use xdg_base::NodeId;

/// Whether two sets have a node in common.
#[tactic(auto, using(crate::proofs::Meetings::some_met, crate::proofs::Meetings::none_met))]
pub fn overlap(a: NodeSet, b: NodeSet) -> bool
    ensures { IsTrue result ↔ Meet a b }
{
    match a.meet(&b).first() {
        Some(_) => true,
        None => false,
    }
}

/// A set, with what a second one adds to it where it has the node in the middle.
#[tactic(auto, using(xdg_facts::proofs::Sets::extended_yes, xdg_facts::proofs::Sets::extended_no))]
pub fn extended(set: NodeSet, middle: u8, beyond: NodeSet) -> NodeSet
    requires { middle < 128 }
    ensures { (b : ℕ) → (has result b ≡ true) ↔ ((has set b ≡ true) ⊎ ((has set middle ≡ true) × (has beyond b ≡ true))) }
{
    if set.contains(NodeId(middle)) {
        return set.union(&beyond);
    }
    set
}
