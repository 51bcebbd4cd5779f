//! What a box makes of a formula.

ghost use Rattle.std.specs.Prelude.{◌≡◌, ◌↔◌, false, IsTrue, map};
ghost use Rattle.xdg_problem.specs.Claims.{EachIsOf, IsOf, Suits, claim, claims_of};
ghost use Rattle.xdg_problem.specs.Places.{nodes};
ghost use Rattle.xdg_problem.specs.Truths.{bound, AreNodes, stands};
ghost use Rattle.xdg_rules.specs.Worths.{Makes, RuleFalse};
ghost use Rattle.xdg_store.specs.States.{Known};
ghost use Rattle.xdg_formula_value.specs.Filling.{ArePaths};
ghost use Rattle.xdg_formula_value.specs.Rows.{AreFirst, IsRowOn};
ghost use Rattle.xdg_formula_value.specs.Several.{MakesSeveral};

use crate::atoms::{attr_row, feat_row};
use crate::pair::{Pair, pair_row};
use crate::paths::{Paths, dims_asked, tables_of};
use crate::quantified::quantified_row;
use crate::rows::{constant, joined, still_open};
use crate::way::Way;
use xdg_graph::node_count;
use xdg_nodeset::NodeSet;
use xdg_problem::{Binding, Formula, node_of, none_bound};
use xdg_store::Store;

/// Of some nodes, those for which a name has to stand so that the box makes a formula true, or false.
#[cycle(rows)]
#[tactic(auto, using(crate::proofs::Claiming::the_claims))]
pub(crate) fn row_of(
    store: &Store,
    paths: &Paths,
    binding: &Binding,
    name: u8,
    formula: &Formula,
    truth: bool,
    care: NodeSet,
) -> NodeSet
    requires paths { ArePaths store.now paths.now }
    requires is_of { IsOf store.now.parts (claim formula.now) }
    requires nodes { AreNodes store.now.parts (stands binding.now) }
    requires care { AreFirst (nodes store.now.parts) care }
    ensures { IsRowOn care (λ v. Makes store.now.parts store.now.now (claim formula.now) truth (bound (stands binding.now) name v)) result }
{
    match formula {
        Formula::Not(inner) => row_of(store, paths, binding, name, inner.get(), !truth, care),
        Formula::And(parts) => {
            let parts = parts.as_slice();
            joined_row(store, paths, binding, name, parts, truth, truth, care)
        }
        Formula::Or(parts) => {
            let parts = parts.as_slice();
            joined_row(store, paths, binding, name, parts, truth, !truth, care)
        }
        Formula::Every(other, inner) => {
            let body = inner.get();
            quantified_row(
                store, paths, binding, name, *other, body, truth, truth, care,
            )
        }
        Formula::Any(other, inner) => {
            let body = inner.get();
            quantified_row(
                store, paths, binding, name, *other, body, truth, !truth, care,
            )
        }
        Formula::Edge(dim, mother, label, daughter) => {
            let pair = Pair::Edge(*dim, *label);
            pair_row(store, paths, binding, name, pair, *mother, *daughter, truth)
        }
        Formula::Above(dim, upper, lower) => {
            let pair = Pair::Path(*dim);
            pair_row(store, paths, binding, name, pair, *upper, *lower, truth)
        }
        Formula::Left(first, second) => {
            let pair = Pair::Left;
            pair_row(store, paths, binding, name, pair, *first, *second, truth)
        }
        Formula::Same(first, second) => {
            let pair = Pair::Same;
            pair_row(store, paths, binding, name, pair, *first, *second, truth)
        }
        Formula::Attr(node, dim, attr, value) => {
            attr_row(
                store, binding, name, *node, *dim, *attr, *value, truth, care,
            )
        }
        Formula::Feat(node, table) => feat_row(store, binding, name, *node, table, truth, care),
    }
}

/// Of some nodes, those for which a name has to stand so that the box makes each of some formulas true, or false, or one or more of them.
#[cycle(rows)]
#[tactic(auto, using(xdg_problem::specs::declared::formula::Formula::TheViews::the_lemmas, crate::proofs::Forms::several_steps))]
fn joined_row(
    store: &Store,
    paths: &Paths,
    binding: &Binding,
    name: u8,
    formulas: &[Formula],
    truth: bool,
    each: bool,
    care: NodeSet,
) -> NodeSet
    requires paths { ArePaths store.now paths.now }
    requires are_of { EachIsOf store.now.parts (claims_of (map claim formulas.now)) }
    requires nodes { AreNodes store.now.parts (stands binding.now) }
    requires care { AreFirst (nodes store.now.parts) care }
    ensures { IsRowOn care
        (λ v. MakesSeveral each store.now.parts store.now.now (claims_of (map claim formulas.now)) truth (bound (stands binding.now) name v)) result }
{
    let mut row = constant(each);
    for formula in formulas {
        let still = still_open(each, care, row);
        if still.len() == 0 {
            continue;
        }
        let here = row_of(store, paths, binding, name, formula, truth, still);
        row = joined(each, row, here);
    }
    row
}

/// Whether the box makes a formula true, or false, under a binding of names to nodes.
#[cycle(whole)]
#[tactic(auto, using(crate::proofs::Claiming::the_claims))]
pub(crate) fn makes(
    store: &Store,
    paths: &Paths,
    binding: &Binding,
    formula: &Formula,
    truth: bool,
) -> bool
    requires paths { ArePaths store.now paths.now }
    requires is_of { IsOf store.now.parts (claim formula.now) }
    requires nodes { AreNodes store.now.parts (stands binding.now) }
    ensures { IsTrue result ↔ Makes store.now.parts store.now.now (claim formula.now) truth (stands binding.now) }
{
    let all = paths.all;
    match formula {
        Formula::Not(inner) => makes(store, paths, binding, inner.get(), !truth),
        Formula::And(parts) => {
            let parts = parts.as_slice();
            makes_joined(store, paths, binding, parts, truth, truth)
        }
        Formula::Or(parts) => {
            let parts = parts.as_slice();
            makes_joined(store, paths, binding, parts, truth, !truth)
        }
        Formula::Every(name, inner) => {
            let row = row_of(store, paths, binding, *name, inner.get(), truth, all);
            paths.has_over(node_count(store), truth, row)
        }
        Formula::Any(name, inner) => {
            let row = row_of(store, paths, binding, *name, inner.get(), truth, all);
            paths.has_over(node_count(store), !truth, row)
        }
        _ => {
            let row = row_of(store, paths, binding, 0, formula, truth, all);
            row.contains(node_of(binding, 0))
        }
    }
}

/// Whether the box makes each of some formulas true, or false, under a binding of names to nodes, or one or more of them. It looks at none
/// behind the one that decides.
#[cycle(whole)]
#[tactic(auto, using(xdg_problem::specs::declared::formula::Formula::TheViews::the_lemmas, crate::proofs::Wholes::several_steps))]
fn makes_joined(
    store: &Store,
    paths: &Paths,
    binding: &Binding,
    formulas: &[Formula],
    truth: bool,
    each: bool,
) -> bool
    requires paths { ArePaths store.now paths.now }
    requires are_of { EachIsOf store.now.parts (claims_of (map claim formulas.now)) }
    requires nodes { AreNodes store.now.parts (stands binding.now) }
    ensures { IsTrue result ↔ MakesSeveral each store.now.parts store.now.now (claims_of (map claim formulas.now)) truth (stands binding.now) }
{
    let mut so_far = each;
    for formula in formulas {
        if so_far != each {
            continue;
        }
        so_far = makes(store, paths, binding, formula, truth);
    }
    so_far
}

/// Whether a formula is false in the box of a store, whatever else is decided. The paths in it are given.
fn is_false_by(store: &Store, formula: &Formula, paths: &Paths) -> bool
    requires suits { Suits store.now.parts formula.now }
    requires paths { ArePaths store.now paths.now }
    requires known { Known store.now }
    ensures { IsTrue result ↔ RuleFalse store.now.parts formula.now store.now.now }
{
    makes(store, paths, &none_bound(), formula, false)
}

/// The same, by tables of the paths on some dimensions.
fn is_false_by_tables(store: &Store, formula: &Formula, dims: [bool; 8]) -> bool
    requires { Suits store.now.parts formula.now }
    ensures exact { IsTrue result ↔ RuleFalse store.now.parts formula.now store.now.now }
    ensures known { Known store.now }
{
    let below = tables_of(store, Way::Down, dims);
    let above = tables_of(store, Way::Up, dims);
    is_false_by(
        store,
        formula,
        &Paths::of(store, Some(&below), Some(&above)),
    )
}

/// Whether a formula is false in the box of a store, whatever else is decided.
pub fn is_false(store: &Store, formula: &Formula) -> bool
    requires { Suits store.now.parts formula.now }
    ensures exact { IsTrue result ↔ RuleFalse store.now.parts formula.now store.now.now }
    ensures known { Known store.now }
{
    match dims_asked(formula) {
        Some(dims) => is_false_by_tables(store, formula, dims),
        None => is_false_by(store, formula, &Paths::of(store, None, None)),
    }
}
