//! What a step of a propagator takes.

ghost use Rattle.std.specs.Prelude.{◌≡◌, ◌*◌, ℕ, true};
ghost use Rattle.xdg_problem.specs.declared.parts.Group.{Group as Use};
ghost use Rattle.xdg_problem.specs.Analyses.{IsPlace};
ghost use Rattle.xdg_problem.specs.Boxes.{Has, entry_decision, attr_decision, edge_decision};
ghost use Rattle.xdg_problem.specs.Problems.{IsGroup};
ghost use Rattle.xdg_rules.specs.Rules.{Takes};
ghost use Rattle.xdg_store.specs.Change.{IsTaken};
ghost use Rattle.xdg_store.specs.InRange.{HasCandidate, HasValue};
ghost use Rattle.xdg_store.specs.States.{Known};
ghost use Rattle.xdg_propcore.specs.Passes.{Goes, Clears, EachValue, Answers, noted, untouched};

use crate::moved::Moved;
use crate::wake::Wake;
use std::marker::Model;
use xdg_base::{AttrId, DimId, NodeId};
use xdg_problem::Edge;
use xdg_store::{Change, Store};

/// What a step of a propagator has taken so far: the kinds of the values, and whether a decision would have lost its last one.
/// Then no box inside is closed, and what comes after in the step adds nothing to that.
///
/// Each value that is taken is one that the principle use takes from the box at that time, or from an earlier box around it; the
/// clauses `goes` and `clears` ask for it. A clause `clears` tells, too, that where nothing was taken the value doesn't remain.
#[derive(Debug, Drop)]
pub struct Pass {
    lost: Wake,
    dead: bool,
}

impl Model for Pass {
    ghost use Rattle.xdg_propcore.specs.Passes.{Progress};

    ghost Value = { Progress };

    ghost view = { λ p. record { lost = p.lost.0; dead = p.dead } };
}

impl Pass {
    /// Nothing was taken yet.
    pub fn start() -> Pass
        ensures { result ≡ untouched }
    {
        Pass {
            lost: Wake(0),
            dead: false,
        }
    }

    /// Keeps what a removal of a value of a kind did.
    fn note(&mut self, change: Change, kind: Wake)
        ensures { self.new ≡ noted change self.old kind.0 }
    {
        match change {
            Change::Same => {}
            Change::Changed => self.lost = Wake(self.lost.0 | kind.0),
            Change::Emptied => self.dead = true,
        }
    }

    /// Takes away that an edge is present.
    pub fn forbid(&mut self, store: &mut Store, edge: Edge)
        requires { IsPlace store.old.parts edge }
        ensures clears { Clears (λ d v. (d ≡ edge_decision store.old.parts edge) × (v ≡ 0)) self.old store.old self.new store.new }
        ensures goes { (group : Use) → IsGroup store.old.parts group → Takes store.old.parts group store.old.now (edge_decision store.old.parts edge) 0
            → Goes group self.old store.old self.new store.new }
        ensures gone { Has store.new.now (edge_decision store.old.parts edge) 0 → self.new.dead ≡ true }
        ensures parts { store.new.parts ≡ store.old.parts }
        ensures known { Known store.new }
    {
        let change = store.forbid_edge(edge);
        self.note(change, Wake::edges(edge.dim));
    }

    /// Takes away that an edge is absent.
    pub fn force(&mut self, store: &mut Store, edge: Edge)
        requires { IsPlace store.old.parts edge }
        ensures clears { Clears (λ d v. (d ≡ edge_decision store.old.parts edge) × (v ≡ 1)) self.old store.old self.new store.new }
        ensures goes { (group : Use) → IsGroup store.old.parts group → Takes store.old.parts group store.old.now (edge_decision store.old.parts edge) 1
            → Goes group self.old store.old self.new store.new }
        ensures gone { Has store.new.now (edge_decision store.old.parts edge) 1 → self.new.dead ≡ true }
        ensures parts { store.new.parts ≡ store.old.parts }
        ensures known { Known store.new }
    {
        let change = store.force_edge(edge);
        self.note(change, Wake::edges(edge.dim));
    }

    /// Takes the candidate of a node at a place away.
    pub fn remove_entry(&mut self, store: &mut Store, node: NodeId, place: u16)
        requires { HasCandidate store.old.parts node.0 place }
        ensures clears { Clears (λ d v. (d ≡ entry_decision node.0) × (v ≡ place)) self.old store.old self.new store.new }
        ensures goes { (group : Use) → IsGroup store.old.parts group → Takes store.old.parts group store.old.now (entry_decision node.0) place
            → Goes group self.old store.old self.new store.new }
        ensures gone { Has store.new.now (entry_decision node.0) place → self.new.dead ≡ true }
        ensures parts { store.new.parts ≡ store.old.parts }
        ensures known { Known store.new }
    {
        let change = store.remove_entry(node, place);
        self.note(change, Wake::entries());
    }

    /// Takes some of a node's candidates away at once: of the 64 candidates from the place `block` * 64 on those whose bits are set.
    pub fn remove_entries(&mut self, store: &mut Store, node: NodeId, block: u16, taken: u64)
        requires { HasCandidate store.old.parts node.0 (block * 64) }
        ensures clears { Clears (λ d v. (d ≡ entry_decision node.0) × IsTaken block taken v) self.old store.old self.new store.new }
        ensures parts { store.new.parts ≡ store.old.parts }
        ensures known { Known store.new }
    {
        let change = store.remove_entries(node, block, taken);
        self.note(change, Wake::entries());
    }

    /// Takes a value of a node's attribute away.
    pub fn remove_attr(
        &mut self,
        store: &mut Store,
        node: NodeId,
        dim: DimId,
        attr: AttrId,
        value: u16,
    )
        requires { HasValue store.old.parts node.0 dim.0 attr.0 value }
        ensures clears { Clears (λ d v. (d ≡ attr_decision store.old.parts dim.0 node.0 attr.0) × (v ≡ value)) self.old store.old self.new store.new }
        ensures goes { (group : Use) → IsGroup store.old.parts group
            → Takes store.old.parts group store.old.now (attr_decision store.old.parts dim.0 node.0 attr.0) value
            → Goes group self.old store.old self.new store.new }
        ensures gone { Has store.new.now (attr_decision store.old.parts dim.0 node.0 attr.0) value → self.new.dead ≡ true }
        ensures parts { store.new.parts ≡ store.old.parts }
        ensures known { Known store.new }
    {
        let change = store.remove_attr(node, dim, attr, value);
        self.note(change, Wake::attrs(dim));
    }

    /// Keeps that no box inside the box of the store is closed: each of its values is taken.
    pub fn fail(&mut self, store: &Store)
        ensures goes { (group : Use) → IsGroup store.now.parts group → ((d v : ℕ) → Has store.now.now d v → Takes store.now.parts group store.now.now d v)
            → Goes group self.old store.now self.new store.now }
        ensures clears { Clears EachValue self.old store.now self.new store.now }
        ensures dead { self.new.dead ≡ true }
        ensures known { Known store.now }
    {
        // Each store holds a box.
        let _ = store.turns();
        self.note(Change::Emptied, Wake(0));
    }

    /// What the step did.
    pub fn moved(&self) -> Moved
        ensures { Answers result self.now }
    {
        if self.dead {
            return Moved::Dead;
        }
        if self.lost.0 == 0 {
            return Moved::Same;
        }
        Moved::Changed(self.lost)
    }
}
