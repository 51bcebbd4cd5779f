//! The edges of a dimension as sets of nodes.

ghost use Rattle.std.specs.Prelude.{◌≡◌, ◌↔◌, ◌⊎◌, ℕ, ◌<◌, ◌≤◌, true, IsTrue};
ghost use Rattle.std.specs.List.{Any};
ghost use Rattle.xdg_facts.specs.Rises.{has};
ghost use Rattle.xdg_problem.specs.Paths.{edges_on};
ghost use Rattle.xdg_judge.specs.Links.{Leads, LeadsBy, AreNeighbours, AreLinks};
ghost use Rattle.xdg_nodeset.specs.Tables.{InTable, InBy, IsClosure};
ghost use Rattle.xdg_judge.specs.Reached.{AreWithin};

use xdg_base::NodeId;
use xdg_nodeset::{NodeSet, extended};
use xdg_problem::Edge;

/// Which way edges are followed.
#[derive(Clone, Copy, Debug)]
pub enum Direction {
    /// From mothers to daughters.
    Down,
    /// From daughters to mothers.
    Up,
}

/// What the edges of a dimension lead to in one direction.
#[derive(Clone, Copy)]
pub struct Neighbours {
    /// For each node and label the nodes that an edge with the label leads to.
    pub by_label: [[NodeSet; 32]; 128],
    /// For each node the nodes that an edge leads to.
    pub next: [NodeSet; 128],
    /// For each node the nodes that a path leads to.
    pub far: [NodeSet; 128],
}

/// The edges of a dimension in both directions.
#[derive(Clone, Copy)]
pub struct Links {
    pub down: Neighbours,
    pub up: Neighbours,
}

/// Whether a node stands in the set that a table has for a node.
pub fn leads(table: &[NodeSet; 128], from: u8, to: u8) -> bool
    requires from { from < 128 }
    requires to { to < 128 }
    ensures { IsTrue result ↔ InTable table.now from to }
{
    table[usize::from(from)].contains(NodeId(to))
}

/// Whether a node stands in the set that a table has for a node and a label.
pub fn leads_by(table: &[[NodeSet; 32]; 128], from: u8, label: u8, to: u8) -> bool
    requires from { from < 128 }
    requires to { to < 128 }
    ensures { IsTrue result ↔ InBy table.now from label to }
{
    match table[usize::from(from)].get(usize::from(label)) {
        Some(set) => set.contains(NodeId(to)),
        None => false,
    }
}

/// Whether the set that a table has for a node and a label has no node.
#[tactic(auto, using(xdg_nodeset::proofs::TableSets::no_label, xdg_nodeset::proofs::TableSets::no_node))]
pub fn leads_nowhere(table: &[[NodeSet; 32]; 128], from: u8, label: u8) -> bool
    requires { from < 128 }
    ensures { IsTrue result → (to : ℕ) → InBy table.now from label to → ⊥ }
{
    match table[usize::from(from)].get(usize::from(label)) {
        Some(set) => set.len() == 0,
        None => true,
    }
}

/// Whether the set that a table has for a node has all of some nodes.
#[tactic(auto, using(xdg_facts::proofs::Sets::none_outside))]
pub fn leads_to_all(table: &[NodeSet; 128], from: u8, nodes: NodeSet) -> bool
    requires { from < 128 }
    ensures { IsTrue result → (to : ℕ) → has nodes to ≡ true → InTable table.now from to }
{
    nodes.minus(&table[usize::from(from)]).len() == 0
}

/// Adds to a table what an edge with a label leads to.
#[tactic(auto, using(xdg_nodeset::proofs::TableSets::added_by))]
fn add_by(table: &mut [[NodeSet; 32]; 128], from: u8, label: u8, to: u8)
    requires from { from < 128 }
    requires label { label < 32 }
    requires to { to < 128 }
    ensures { (a l b : ℕ) → InBy table.new a l b ↔ (InBy table.old a l b ⊎ ((from ≡ a) × (label ≡ l) × (to ≡ b))) }
{
    table[usize::from(from)][usize::from(label)].insert(NodeId(to));
}

/// Adds to a table what an edge leads to.
#[tactic(auto, using(xdg_nodeset::proofs::TableSets::added))]
fn add(table: &mut [NodeSet; 128], from: u8, to: u8)
    requires from { from < 128 }
    requires to { to < 128 }
    ensures { (a b : ℕ) → InTable table.new a b ↔ (InTable table.old a b ⊎ ((from ≡ a) × (to ≡ b))) }
{
    table[usize::from(from)].insert(NodeId(to));
}

/// Adds to each set of a table that has the node in the middle what the table has for that node.
#[tactic(auto, using(xdg_nodeset::proofs::TableSets::widened_start, xdg_nodeset::proofs::TableSets::widened_more, xdg_nodeset::proofs::TableSets::widened_end))]
fn widen(table: &mut [NodeSet; 128], middle: u8)
    requires { middle < 128 }
    ensures { (a b : ℕ) → InTable table.new a b ↔ (InTable table.old a b ⊎ (InTable table.old a middle × InTable table.old middle b)) }
{
    let beyond = table[usize::from(middle)];
    for set in table.iter_mut() {
        *set = extended(*set, middle, beyond);
    }
}

/// What a table leads to through the first nodes, by the algorithm of Warshall (1962).
#[tactic(auto, using(xdg_nodeset::proofs::Closures::closure_start, xdg_nodeset::proofs::Closures::closure_more))]
fn closed(table: &[NodeSet; 128], size: u8) -> [NodeSet; 128]
    requires { size ≤ 128 }
    ensures { IsClosure size table.now result }
{
    let mut closed = *table;
    for middle in 0..size {
        widen(&mut closed, middle);
    }
    closed
}

impl Neighbours {
    /// No edge leads anywhere.
    #[tactic(auto, using(xdg_nodeset::proofs::TableSets::no_in, xdg_nodeset::proofs::TableSets::no_by))]
    pub(crate) fn none() -> Neighbours
        ensures by_label { (from label to : ℕ) → InBy result.by_label from label to → ⊥ }
        ensures next { (from to : ℕ) → InTable result.next from to → ⊥ }
    {
        Neighbours {
            by_label: [[NodeSet::empty(); 32]; 128],
            next: [NodeSet::empty(); 128],
            far: [NodeSet::empty(); 128],
        }
    }

    /// Adds what an edge leads to.
    fn add(&mut self, direction: Direction, edge: Edge)
        requires mother { edge.mother.0 < 128 }
        requires label { edge.label.0 < 32 }
        requires daughter { edge.daughter.0 < 128 }
        ensures by_label { (a l b : ℕ) → InBy self.new.by_label a l b ↔ (InBy self.old.by_label a l b ⊎ LeadsBy direction a l b edge) }
        ensures next { (a b : ℕ) → InTable self.new.next a b ↔ (InTable self.old.next a b ⊎ Leads direction a b edge) }
    {
        let label = edge.label.0;
        let (from, to) = match direction {
            Direction::Down => (edge.mother.0, edge.daughter.0),
            Direction::Up => (edge.daughter.0, edge.mother.0),
        };
        add_by(&mut self.by_label, from, label, to);
        add(&mut self.next, from, to);
    }

    /// What the edges of a dimension lead to, one at a time.
    fn gathered(edges: &[Edge], dim: u8, direction: Direction) -> Neighbours
        requires { AreWithin 128 edges.now }
        ensures by_label { (from label to : ℕ) → InBy result.by_label from label to ↔ Any (LeadsBy direction from label to) (edges_on dim edges.now) }
        ensures next { (from to : ℕ) → InTable result.next from to ↔ Any (Leads direction from to) (edges_on dim edges.now) }
    {
        let mut sets = Neighbours::none();
        for edge in edges {
            if edge.dim.0 == dim {
                sets.add(direction, *edge);
            }
        }
        sets
    }

    /// What the edges of a dimension lead to in a direction.
    pub(crate) fn of(edges: &[Edge], dim: u8, direction: Direction, size: u8) -> Neighbours
        requires size { size ≤ 128 }
        requires within { AreWithin size edges.now }
        ensures { AreNeighbours direction (edges_on dim edges.now) result }
    {
        let mut sets = Neighbours::gathered(edges, dim, direction);
        sets.far = closed(&sets.next, size);
        sets
    }
}

impl Links {
    /// The edges of a dimension among the first nodes.
    pub fn of(edges: &[Edge], dim: u8, size: u8) -> Links
        requires size { size ≤ 128 }
        requires within { AreWithin size edges.now }
        ensures { AreLinks (edges_on dim edges.now) result }
    {
        Links {
            down: Neighbours::of(edges, dim, Direction::Down, size),
            up: Neighbours::of(edges, dim, Direction::Up, size),
        }
    }
}
