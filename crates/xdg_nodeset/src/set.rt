//! A set of nodes as the bits of one number.

ghost use Rattle.std.specs.Prelude.{◌≡◌, ℕ, ◌<◌, ◌++◌, [], ◌∷◌, ◌==◌, ◌&&◌, ◌||◌, length, not, false, ◌↔◌, MatchOption, nat_lt};
ghost use Prim.Native.Nat.{min, max};
ghost use Rattle.xdg_nodeset.specs.Nodes.{IsNodes, with_node, without, union, meet, minus, between};
ghost use Rattle.xdg_facts.specs.Rises.{has};
ghost use Rattle.xdg_nodeset.specs.Words.{in_words};

use crate::walk::NodeIter;
use std::marker::Model;
use xdg_base::NodeId;

/// A set of nodes, each below 128, so that a sentence of up to 128 words has room. It is copied as
/// one number, and no call takes memory.
#[derive(Clone, Debug)]
pub struct NodeSet {
    // Bit n tells whether node n is a member.
    bits: u128,
}

impl Model for NodeSet {
    ghost use Rattle.std.specs.Prelude.{ℕ, List, ◌<◌, ◌^◌};
    ghost use Rattle.xdg_nodeset.specs.Bits.{same_bits};
    ghost use Rattle.xdg_facts.specs.BitSets.{members, number};

    ghost Value = { List ℕ };

    ghost view = { λ s. members s.bits };

    ghost invariant = { λ s. s.bits < 2 ^ 128 };

    ghost inverse = { λ s. record { bits = number s } };

    ghost inverse_ok = { λ s within. same_bits s within };
}

impl Copy for NodeSet {}

impl NodeSet {
    /// The set without nodes.
    pub fn empty() -> NodeSet
        ensures value { result ≡ [] }
        ensures nodes { IsNodes result }
    {
        NodeSet { bits: 0 }
    }

    /// The nodes whose bits are set in two words: the first has those of the nodes below 64, the second those of the next
    /// 64, each the least node at its lowest bit.
    pub fn from_words(low: u64, high: u64) -> NodeSet
        ensures members { (n : ℕ) → has result n ≡ in_words low high n }
        ensures nodes { IsNodes result }
    {
        NodeSet {
            bits: u128::from(low) | (u128::from(high) << 64),
        }
    }

    /// Whether the node is a member.
    pub fn contains(&self, node: NodeId) -> bool
        requires { node.0 < 128 }
        ensures value { result ≡ has self.now node.0 }
        ensures nodes { IsNodes self.now }
    {
        (self.bits >> node.0) & 1 == 1
    }

    /// Adds a node, and tells whether the set changed.
    pub fn insert(&mut self, node: NodeId) -> bool
        requires { node.0 < 128 }
        ensures value { self.new ≡ with_node self.old node.0 }
        ensures members { (n : ℕ) → has self.new n ≡ ((n == node.0) || has self.old n) }
        ensures changed { result ≡ not (has self.old node.0) }
        ensures same { (result ≡ false) ↔ (self.new ≡ self.old) }
    {
        let had = self.contains(node);
        self.bits |= 1u128 << node.0;
        !had
    }

    /// Takes a node out, and tells whether the set changed.
    pub fn remove(&mut self, node: NodeId) -> bool
        requires { node.0 < 128 }
        ensures value { self.new ≡ without self.old node.0 }
        ensures members { (n : ℕ) → has self.new n ≡ (not (n == node.0) && has self.old n) }
        ensures changed { result ≡ has self.old node.0 }
        ensures same { (result ≡ false) ↔ (self.new ≡ self.old) }
    {
        let had = self.contains(node);
        self.bits &= !(1u128 << node.0);
        had
    }

    /// The nodes of both sets together.
    pub fn union(&self, other: &NodeSet) -> NodeSet
        ensures value { result ≡ union self.now other.now }
        ensures members { (n : ℕ) → has result n ≡ (has self.now n || has other.now n) }
    {
        NodeSet {
            bits: self.bits | other.bits,
        }
    }

    /// The nodes that both sets have.
    pub fn meet(&self, other: &NodeSet) -> NodeSet
        ensures value { result ≡ meet self.now other.now }
        ensures members { (n : ℕ) → has result n ≡ (has self.now n && has other.now n) }
    {
        NodeSet {
            bits: self.bits & other.bits,
        }
    }

    /// The nodes that this set has and the other has not.
    pub fn minus(&self, other: &NodeSet) -> NodeSet
        ensures value { result ≡ minus self.now other.now }
        ensures members { (n : ℕ) → has result n ≡ (has self.now n && not (has other.now n)) }
    {
        NodeSet {
            bits: self.bits & !other.bits,
        }
    }

    /// How many nodes there are.
    pub fn len(&self) -> usize
        ensures value { result ≡ length self.now }
        ensures nodes { IsNodes self.now }
    {
        self.bits.count_ones() as usize
    }

    /// The least node.
    pub fn first(&self) -> Option<NodeId>
        ensures value { MatchOption result (self.now ≡ []) (λ node. (self.now ≡ node.0 ∷ without self.now node.0) × (node.0 < 128)) }
        ensures nodes { IsNodes self.now }
    {
        if self.bits == 0 {
            return None;
        }
        Some(NodeId(self.bits.trailing_zeros() as u8))
    }

    /// The greatest node.
    pub(crate) fn last(&self) -> Option<NodeId>
        ensures { MatchOption result (self.now ≡ []) (λ node. (self.now ≡ without self.now node.0 ++ node.0 ∷ []) × (node.0 < 128)) }
    {
        if self.bits == 0 {
            return None;
        }
        Some(NodeId(127 - self.bits.leading_zeros() as u8))
    }

    /// The nodes strictly between the two, whichever of them is the lesser.
    pub fn between(a: NodeId, b: NodeId) -> NodeSet
        requires { (a.0 < 128) × (b.0 < 128) }
        ensures value { result ≡ between a.0 b.0 }
        ensures members { (n : ℕ) → has result n ≡ (nat_lt (min a.0 b.0) n && nat_lt n (max a.0 b.0)) }
    {
        let low = a.0.min(b.0);
        let high = a.0.max(b.0);
        let from_low = (1u128 << high) - (1u128 << low);
        NodeSet {
            bits: from_low & !(1u128 << low),
        }
    }

    /// The nodes in rising order, from both ends.
    pub fn iter(&self) -> NodeIter
        ensures value { result ≡ self.now }
        ensures nodes { IsNodes self.now }
    {
        NodeIter::over(NodeSet { bits: self.bits })
    }
}

impl PartialEq for NodeSet {
    ghost use Rattle.std.specs.Prelude.{nat_eq};
    ghost use Rattle.std.specs.Cmp.{partial_equiv_from_equiv};
    ghost use Rattle.std.specs.Cmp.Lexicographic.{pointwise};
    ghost use Rattle.std.proofs.lemmas.Cmp.{nat_list_eq_equiv};

    ghost eq = { pointwise nat_eq };

    ghost laws = { partial_equiv_from_equiv nat_list_eq_equiv };

    fn eq(&self, other: &NodeSet) -> bool {
        self.bits == other.bits
    }
}

impl Eq for NodeSet {
    ghost use Rattle.std.proofs.lemmas.Cmp.{nat_list_eq_equiv};

    ghost laws = { nat_list_eq_equiv };
}
