//! The nodes of a sentence, and the paths in a box on the dimensions of which they are asked for often.

ghost use Rattle.std.specs.Prelude.{◌≡◌, ◌<◌, ◌↔◌, ℕ, true, IfSome, IsTrue};
ghost use Rattle.xdg_nodeset.specs.Tables.{InTable};
ghost use Rattle.xdg_facts.specs.Rises.{has};
ghost use Rattle.xdg_problem.specs.Places.{nodes};
ghost use Rattle.xdg_problem.specs.Paths.{Above};
ghost use Rattle.xdg_graph.specs.Edges.{edges_of};
ghost use Rattle.xdg_store.specs.States.{Known};
ghost use Rattle.xdg_formula_value.specs.Filling.{AreFilled, ArePaths, TellsPaths};
ghost use Rattle.xdg_formula_value.specs.Pairs.{Along};
ghost use Rattle.xdg_graph.specs.Every.{IsEvery};
ghost use Rattle.xdg_formula_value.specs.Rows.{Over};
ghost use Rattle.xdg_formula_value.specs.declared.way.Way.TheVariants as ways;

use crate::reach::reach;
use crate::way::Way;
use xdg_base::{DimId, NodeId};
use xdg_graph::{Which, above, ancestors, every_node, set_at};
use xdg_nodeset::NodeSet;
use xdg_problem::Formula;
use xdg_store::Store;

/// For some dimensions tables of the nodes to which paths lead from each node, one way.
#[derive(Debug, Drop)]
pub struct Filled {
    /// For each dimension whether it has tables.
    pub known: [bool; 8],
    /// By the edges that may be.
    pub may: [[NodeSet; 128]; 8],
    /// By the edges that must be.
    pub must: [[NodeSet; 128]; 8],
}

/// The nodes of a sentence, and the tables of the nodes below each node and of those above it, where paths are asked for.
#[derive(Debug, Drop)]
pub struct Paths<'a> {
    /// The nodes.
    pub all: NodeSet,
    /// The nodes below.
    pub below: Option<&'a Filled>,
    /// The nodes above.
    pub above: Option<&'a Filled>,
}

/// Notes the dimensions on which a formula asks for paths.
#[cycle(asking)]
fn note(formula: &Formula, dims: &mut [bool; 8]) {
    match formula {
        Formula::Not(inner) => note(inner.get(), dims),
        Formula::And(parts) => {
            for part in parts.as_slice() {
                note(part, dims);
            }
        }
        Formula::Or(parts) => {
            for part in parts.as_slice() {
                note(part, dims);
            }
        }
        Formula::Every(_, inner) => note(inner.get(), dims),
        Formula::Any(_, inner) => note(inner.get(), dims),
        Formula::Above(dim, _, _) => {
            if dim.0 < 8 {
                dims[dim.0 as usize] = true;
            }
        }
        _ => {}
    }
}

/// For each node those to which paths lead, one way.
fn table(store: &Store, way: Way, which: Which, dim: DimId) -> [NodeSet; 128]
    ensures { (a b : ℕ) → InTable result a b ↔ Along way (Above (edges_of which store.now.parts store.now.now dim.0)) a b }
{
    match way {
        Way::Down => above(store, which, dim),
        Way::Up => ancestors(store, which, dim),
    }
}

/// The tables of some dimensions.
fn tables(store: &Store, way: Way, which: Which, dims: &[bool; 8]) -> [[NodeSet; 128]; 8]
    ensures { TellsPaths way which store.now 8 dims.now result }
{
    let mut tables = [[NodeSet::empty(); 128]; 8];
    for dim in 0..8 {
        if !dims[dim as usize] {
            continue;
        }
        tables[dim as usize] = table(store, way, which, DimId(dim));
    }
    tables
}

/// The dimensions on which a formula asks for paths, if it asks for any.
pub(crate) fn dims_asked(formula: &Formula) -> Option<[bool; 8]> {
    let mut dims = [false; 8];
    note(formula, &mut dims);
    if dims.iter().any(|asked| *asked) {
        return Some(dims);
    }
    None
}

/// The tables of some dimensions, one way.
pub(crate) fn tables_of(store: &Store, way: Way, known: [bool; 8]) -> Filled
    ensures { AreFilled way store.now result }
{
    Filled {
        may: tables(store, way, Which::May, &known),
        must: tables(store, way, Which::Must, &known),
        known,
    }
}

/// The nodes to which paths lead from a node, one way. There may be tables of some dimensions.
pub(crate) fn far(
    store: &Store,
    filled: Option<&Filled>,
    way: Way,
    which: Which,
    dim: DimId,
    node: NodeId,
) -> NodeSet
    requires filled { IfSome filled (λ it. AreFilled way store.now it.now) }
    requires dim { dim.0 < 8 }
    requires node { node.0 < 128 }
    ensures { (x : ℕ) → (has result x ≡ true) ↔ Along way (Above (edges_of which store.now.parts store.now.now dim.0)) node.0 x }
{
    let Some(filled) = filled else {
        return reach(store, way, which, dim, node);
    };
    if !filled.known[dim.0 as usize] {
        return reach(store, way, which, dim, node);
    }
    match which {
        Which::May => set_at(&filled.may[dim.0 as usize], node),
        Which::Must => set_at(&filled.must[dim.0 as usize], node),
    }
}

impl<'a> Paths<'a> {
    /// The nodes of a sentence, with these tables of the paths in the box of a store.
    pub(crate) fn of(
        store: &Store,
        below: Option<&'a Filled>,
        above: Option<&'a Filled>,
    ) -> Paths<'a>
        requires below { IfSome below (λ it. AreFilled ways.Down store.now it.now) }
        requires above { IfSome above (λ it. AreFilled ways.Up store.now it.now) }
        ensures paths { ArePaths store.now result }
        ensures known { Known store.now }
    {
        Paths {
            all: every_node(store),
            below,
            above,
        }
    }

    /// Whether a set has each node, or some.
    pub(crate) fn has_over(&self, size: u8, each: bool, set: NodeSet) -> bool
        requires { IsEvery size self.now.all }
        ensures { IsTrue result ↔ Over each size (λ v. has set v ≡ true) }
    {
        if each {
            return self.all.minus(&set).len() == 0;
        }
        self.all.meet(&set).len() != 0
    }
}
