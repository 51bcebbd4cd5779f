//! Whether a formula is true in an analysis.

ghost use Rattle.std.specs.Prelude.{◌≡◌, ◌≤◌, ◌↔◌, IsTrue, length};
ghost use Rattle.xdg_problem.specs.Analyses.{IsAnalysis};
ghost use Rattle.xdg_problem.specs.Claims.{claim};
ghost use Rattle.xdg_problem.specs.Problems.{IsProblem};
ghost use Rattle.xdg_problem.specs.Truths.{FormulaHolds, IsTrueIn, AreNodes, stands};
ghost use Rattle.xdg_judge.specs.Graphs.{AreGraphs, IsReady};

use crate::atoms::{has_entry, has_value, is_edge, is_path};
use crate::links::{Direction, Neighbours};
use xdg_problem::{Analysis, Binding, Formula, Parts, bind, node_of, none_bound};

/// Whether a formula is true under a binding of names to nodes.
#[cycle(truth)]
fn is_true(
    parts: &Parts,
    analysis: &Analysis,
    tables: &[Neighbours; 8],
    binding: &Binding,
    formula: &Formula,
) -> bool
    requires ready { IsReady parts.now analysis.now tables.now }
    requires nodes { AreNodes parts.now (stands binding.now) }
    ensures { IsTrue result ↔ IsTrueIn parts.now analysis.now (claim formula.now) (stands binding.now) }
{
    match formula {
        Formula::Not(inner) => !is_true(parts, analysis, tables, binding, inner.get()),
        Formula::And(members) => {
            for member in members.as_slice() {
                if !is_true(parts, analysis, tables, binding, member) {
                    return false;
                }
            }
            true
        }
        Formula::Or(members) => {
            for member in members.as_slice() {
                if is_true(parts, analysis, tables, binding, member) {
                    return true;
                }
            }
            false
        }
        Formula::Every(name, inner) => {
            for node in 0..parts.words.len() as u8 {
                let inside = bind(binding, *name, node);
                if !is_true(parts, analysis, tables, &inside, inner.get()) {
                    return false;
                }
            }
            true
        }
        Formula::Any(name, inner) => {
            for node in 0..parts.words.len() as u8 {
                let inside = bind(binding, *name, node);
                if is_true(parts, analysis, tables, &inside, inner.get()) {
                    return true;
                }
            }
            false
        }
        Formula::Edge(dim, mother, label, daughter) => {
            let (upper, lower) = (node_of(binding, *mother).0, node_of(binding, *daughter).0);
            is_edge(parts, analysis, tables, *dim, upper, *label, lower)
        }
        Formula::Above(dim, upper, lower) => {
            let (upper, lower) = (node_of(binding, *upper).0, node_of(binding, *lower).0);
            is_path(parts, analysis, tables, *dim, upper, lower)
        }
        Formula::Left(first, second) => node_of(binding, *first).0 < node_of(binding, *second).0,
        Formula::Same(first, second) => node_of(binding, *first).0 == node_of(binding, *second).0,
        Formula::Attr(name, dim, attr, value) => {
            has_value(
                parts,
                analysis,
                node_of(binding, *name).0,
                *dim,
                *attr,
                *value,
            )
        }
        Formula::Feat(name, table) => has_entry(parts, analysis, node_of(binding, *name).0, table),
    }
}

/// Whether a formula is true in an analysis. It follows the edges of each dimension once.
pub(crate) fn formula_holds(parts: &Parts, analysis: &Analysis, formula: &Formula) -> bool
    requires problem { IsProblem parts.now }
    requires fits { IsAnalysis parts.now analysis.now }
    ensures { IsTrue result ↔ FormulaHolds parts.now analysis.now formula.now }
{
    let size = parts.words.len() as u8;
    let mut tables = [Neighbours::none(); 8];
    for dim in 0..parts.dims.len() as u8 {
        let edges = analysis.edges.as_slice();
        tables[usize::from(dim)] = Neighbours::of(edges, dim, Direction::Down, size);
    }
    let binding = none_bound();
    is_true(parts, analysis, &tables, &binding, formula)
}
