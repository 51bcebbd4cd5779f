//! The edges that lead into nodes.

ghost use Rattle.std.specs.Prelude.{◌≡◌, ◌<◌, ◌↔◌, ◌||◌, ◌&&◌, ℕ, true, IsTrue, not};
ghost use Rattle.xdg_facts.specs.Rises.{has};
ghost use Rattle.xdg_store.specs.States.{Known};
ghost use Rattle.xdg_propcore.specs.Passes.{IsQuiet};
ghost use Rattle.xdg_pgraph.specs.Incomings.{AreCounts, AreOf, CountsSettle, HaveLabels};
ghost use Rattle.xdg_pgraph.specs.Musts.{IsSettled};
ghost use Rattle.xdg_pgraph.specs.Planes.{IsPlane};

use crate::entered::{Count, Entered, alone};
use crate::plane::Plane;
use xdg_base::NodeId;
use xdg_nodeset::NodeSet;
use xdg_propcore::{Moved, Pass};
use xdg_store::{Labels, Store};

/// How many edges have these labels.
fn count(labels: Labels) -> Count
    ensures { HaveLabels labels result }
{
    if labels.some == 0 {
        return Count::Nothing;
    }
    if labels.more != 0 {
        return Count::More;
    }
    let first = labels.some.trailing_zeros();
    if labels.some & !(1 << first) != 0 {
        return Count::More;
    }
    Count::One
}

/// How many edges may lead into a node, and how many must.
#[derive(Clone, Copy, Debug)]
pub(crate) struct Counts {
    pub may: Count,
    pub must: Count,
}

/// How many edges lead into a node.
fn counts_at(store: &Store, plane: &Plane, daughter: u8) -> Counts
    requires plane { IsPlane store.now.parts plane.now }
    requires known { Known store.now }
    requires daughter { daughter < plane.now.nodes }
    ensures { AreCounts store.now.parts store.now.now plane.now.dim.0 daughter result }
{
    let into = store.labels_into(plane.dim, NodeId(daughter));
    Counts {
        may: count(into.may),
        must: count(into.must),
    }
}

/// The nodes into which edges lead that may be present, and those into which edges lead that must be.
#[derive(Clone, Copy, Debug)]
pub(crate) struct Incoming {
    pub may: Entered,
    pub must: Entered,
}

impl Incoming {
    /// Those of the box of a store.
    pub(crate) fn of(store: &Store, plane: &Plane) -> Incoming
        requires plane { IsPlane store.now.parts plane.now }
        requires known { Known store.now }
        ensures { AreOf store.now.parts store.now.now plane.now.dim.0 result }
    {
        let mut may = Entered::nowhere();
        let mut must = Entered::nowhere();
        for daughter in 0..plane.nodes {
            let this = alone(daughter);
            let here = counts_at(store, plane, daughter);
            may = may.with(&this, here.may);
            must = must.with(&this, here.must);
        }
        Incoming { may, must }
    }

    /// Those of the box now, where these are of the box at the start of a step.
    pub(crate) fn renewed(&self, store: &Store, pass: &Pass, plane: &Plane) -> Incoming
        requires plane { IsPlane store.now.parts plane.now }
        requires known { Known store.now }
        requires quiet { IsQuiet pass.now → AreOf store.now.parts store.now.now plane.now.dim.0 self.now }
        ensures { AreOf store.now.parts store.now.now plane.now.dim.0 result }
    {
        match pass.moved() {
            Moved::Same => *self,
            Moved::Changed(_) => Incoming::of(store, plane),
            Moved::Dead => Incoming::of(store, plane),
        }
    }

    /// The nodes into which one edge alone may lead that need not be present.
    pub(crate) fn single(&self) -> NodeSet
        ensures { (n : ℕ) → has result n ≡ (has self.now.may.some n && not (has self.now.may.more n || has self.now.must.some n)) }
    {
        self.may.some.minus(&self.may.more.union(&self.must.some))
    }
}

impl Counts {
    /// Whether edges may lead into the node, more than one of them or one that must be present.
    fn are_settled(self) -> bool
        ensures { IsTrue result ↔ CountsSettle self }
    {
        match self.may {
            Count::Nothing => false,
            Count::One => match self.must {
                Count::Nothing => false,
                Count::One => true,
                Count::More => true,
            },
            Count::More => true,
        }
    }
}

/// Whether edges may lead into each of some nodes of the sentence, more than one of them or one that must be present.
pub(crate) fn are_settled(store: &Store, plane: &Plane, nodes: NodeSet) -> bool
    requires plane { IsPlane store.now.parts plane.now }
    requires known { Known store.now }
    ensures { IsTrue result → (n : ℕ) → n < plane.now.nodes → has nodes n ≡ true → IsSettled store.now.parts store.now.now plane.now.dim.0 n }
{
    let here = nodes.meet(&store.all_nodes());
    for node in here.iter() {
        if !counts_at(store, plane, node.0).are_settled() {
            return false;
        }
    }
    true
}
