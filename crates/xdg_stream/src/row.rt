//! The edges with a label out of a mother, read at once.

ghost use Rattle.std.specs.Prelude.{◌≡◌, ◌<◌, ◌≤◌, ◌+◌, ℕ, AllPairs, IfSome, IsTrue, length, slice_index_or};
ghost use Rattle.xdg_problem.specs.Analyses.{Before, IsPlace};
ghost use Rattle.xdg_problem.specs.declared.analysis.Edge.{Edge};
ghost use Rattle.xdg_stream.specs.Rows.{IsAbsent, IsOf, Reads, Says};

use xdg_base::{DimId, LabelId, NodeId};
use xdg_nodeset::NodeSet;
use xdg_problem::Edge;
use xdg_store::Store;

/// The edges with a label out of a mother: the daughters to which one may lead, and those to which one must.
#[derive(Clone, Copy)]
pub(crate) struct Row {
    dim: DimId,
    mother: NodeId,
    label: LabelId,
    may: NodeSet,
    must: NodeSet,
}

/// A row that no edge of a sentence is in: its mother is none of the nodes.
pub(crate) fn no_row() -> Row
    ensures { result.mother.0 ≡ 255 }
{
    Row {
        dim: DimId(0),
        mother: NodeId(255),
        label: LabelId(0),
        may: NodeSet::empty(),
        must: NodeSet::empty(),
    }
}

/// The row of an edge.
fn row_of(store: &Store, edge: Edge) -> Row
    requires { IsPlace store.now.parts edge }
    ensures reads { Reads store.now.parts store.now.now result }
    ensures of { IsOf result edge }
{
    let may = store.daughters_may(edge.dim, edge.mother, edge.label);
    let must = store.daughters_must(edge.dim, edge.mother, edge.label);
    Row {
        dim: edge.dim,
        mother: edge.mother,
        label: edge.label,
        may,
        must,
    }
}

/// Whether an edge is in a row.
fn is_in(row: &Row, edge: Edge) -> bool
    ensures { IsTrue result → IsOf row.now edge }
{
    row.label.0 == edge.label.0 && row.mother.0 == edge.mother.0 && row.dim.0 == edge.dim.0
}

/// Reads the row of an edge, unless it is the one at hand.
pub(crate) fn read_row(row: &mut Row, store: &Store, edge: Edge)
    requires place { IsPlace store.now.parts edge }
    requires reads { Reads store.now.parts store.now.now row.old }
    ensures reads { Reads store.now.parts store.now.now row.new }
    ensures of { IsOf row.new edge }
{
    if is_in(row, edge) {
        return;
    }
    *row = row_of(store, edge);
}

/// The number of the decision on the edge of a row to a daughter, if it has one value left.
pub(crate) fn number_in(row: &Row, daughter: NodeId) -> Option<u16>
    requires { daughter.0 < 128 }
    ensures { IfSome result (λ value. Says row.now daughter.0 value) }
{
    if row.must.contains(daughter) {
        return Some(0);
    }
    if row.may.contains(daughter) {
        return None;
    }
    Some(1)
}

/// How many places from one on make up a row, if they are a whole one in which no edge may be, and no more than so many; else 0.
/// The width of a row is given.
pub(crate) fn absent_from(
    row: &Row,
    edge_places: &[Edge],
    place: usize,
    width: usize,
    most: u64,
) -> usize
    requires ordered { AllPairs Before edge_places.now }
    requires there { place < length edge_places.now }
    requires of { (d : Edge) → IsOf row.now (slice_index_or edge_places.now place d) }
    ensures within { place + result ≤ length edge_places.now }
    ensures most { result ≤ most }
    ensures absent { (k : ℕ) (d : Edge) → place ≤ k → k < place + result → IsAbsent row.now (slice_index_or edge_places.now k d) }
{
    if row.may.len() != 0 {
        return 0;
    }
    if width == 0 || width as u64 > most || width > edge_places.len() - place {
        return 0;
    }
    // The places stand in order, so that what stands between two of a row is in it.
    if !is_in(row, edge_places[place + width - 1]) {
        return 0;
    }
    width
}
