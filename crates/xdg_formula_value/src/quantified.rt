//! What a box makes of a formula under a quantifier.

ghost use Rattle.xdg_problem.specs.Claims.{IsOf, claim};
ghost use Rattle.xdg_problem.specs.Places.{nodes};
ghost use Rattle.xdg_problem.specs.Truths.{bound, AreNodes, stands};
ghost use Rattle.xdg_rules.specs.Worths.{Makes};
ghost use Rattle.xdg_formula_value.specs.Filling.{ArePaths};
ghost use Rattle.xdg_formula_value.specs.Rows.{AreFirst, IsRowOn, Over};

use crate::paths::Paths;
use crate::possible::{possible_row, possible_second};
use crate::rows::kept;
use crate::value::row_of;
use xdg_graph::node_count;
use xdg_nodeset::NodeSet;
use xdg_problem::{Binding, Formula, rebind};
use xdg_store::Store;

/// Of some nodes, those for which a name has to stand so that the box makes a formula true, or false, whichever node a further name stands
/// for, or for some such node. It goes only to nodes that are possible whatever the further name stands for, and there looks only at those
/// that are possible for the further one.
// The table of nodes stands in no frame but this one's.
#[inline(never)]
#[cycle(rows)]
pub(crate) fn quantified_row(
    store: &Store,
    paths: &Paths,
    binding: &Binding,
    name: u8,
    other: u8,
    formula: &Formula,
    truth: bool,
    each: bool,
    care: NodeSet,
) -> NodeSet
    requires paths { ArePaths store.now paths.now }
    requires is_of { IsOf store.now.parts (claim formula.now) }
    requires nodes { AreNodes store.now.parts (stands binding.now) }
    requires care { AreFirst (nodes store.now.parts) care }
    ensures { IsRowOn care
        (λ v. Over each (nodes store.now.parts)
        (λ node. Makes store.now.parts store.now.now (claim formula.now) truth (bound (bound (stands binding.now) name v) other node)))
        result }
{
    let size = node_count(store);
    let mut row = NodeSet::empty();
    let second = possible_second(store, paths, binding, name, other, formula, truth);
    if second.len() == 0 {
        return row;
    }
    let possible = care.meet(&possible_row(
        store, paths, binding, name, other, formula, truth, care,
    ));
    let mut here = *binding;
    for node in possible.iter() {
        rebind(&mut here, name, node.0);
        let inside = row_of(store, paths, &here, other, formula, truth, second);
        let met = inside.meet(&second);
        row = kept(row, node.0, paths.has_over(size, each, met));
    }
    row
}
