//! Nodes that are possible for a name, whatever a second name stands for.

ghost use Rattle.std.specs.Prelude.{◌≡◌, ◌<◌, ℕ, map, true};
ghost use Rattle.xdg_facts.specs.Rises.{has};
ghost use Rattle.xdg_problem.specs.Claims.{EachIsOf, IsOf, claim, claims_of};
ghost use Rattle.xdg_problem.specs.Places.{nodes};
ghost use Rattle.xdg_problem.specs.Truths.{bound, HasTruth, AreNodes, stands};
ghost use Rattle.xdg_rules.specs.Worths.{Makes};
ghost use Rattle.xdg_formula_value.specs.Filling.{ArePaths};
ghost use Rattle.xdg_formula_value.specs.Pairs.{IsPairOf, Relates, edges_for};
ghost use Rattle.xdg_formula_value.specs.Rows.{AreFirst, Bounds};
ghost use Rattle.xdg_formula_value.specs.Several.{MakesSeveral};

use crate::atoms::{attr_row, feat_row};
use crate::pair::{Pair, pair_row};
use crate::paths::Paths;
use crate::rows::{constant, joined, still_open};
use xdg_nodeset::NodeSet;
use xdg_problem::{Binding, Formula};
use xdg_store::Store;

/// Nodes for which a name may have to stand so that the box makes true, or false, that what two names stand for is related. A further
/// name may stand for any node: where it is one of the two, all nodes are possible.
fn possible_pair(
    store: &Store,
    paths: &Paths,
    binding: &Binding,
    name: u8,
    other: u8,
    pair: Pair,
    first: u8,
    second: u8,
    truth: bool,
) -> NodeSet
    requires paths { ArePaths store.now paths.now }
    requires pair { IsPairOf store.now.parts pair }
    requires nodes { AreNodes store.now.parts (stands binding.now) }
    ensures { (v node : ℕ) → v < nodes store.now.parts
        → HasTruth truth
        (Relates pair (edges_for truth) store.now.parts store.now.now (bound (bound (stands binding.now) name v) other node first)
        (bound (bound (stands binding.now) name v) other node second))
        → has result v ≡ true }
{
    if first == other {
        return constant(true);
    }
    if second == other {
        return constant(true);
    }
    pair_row(store, paths, binding, name, pair, first, second, truth)
}

/// Of some nodes, at least those for which a name has to stand so that the box makes a formula true, or false, for some node for which
/// a further name stands. It doesn't look at what names the further name, nor under quantifiers: there each node is possible.
#[cycle(possible)]
#[tactic(auto, using(crate::proofs::Claiming::the_claims, crate::proofs::Formed::possible_forms))]
pub(crate) fn possible_row(
    store: &Store,
    paths: &Paths,
    binding: &Binding,
    name: u8,
    other: u8,
    formula: &Formula,
    truth: bool,
    care: NodeSet,
) -> NodeSet
    requires paths { ArePaths store.now paths.now }
    requires is_of { IsOf store.now.parts (claim formula.now) }
    requires nodes { AreNodes store.now.parts (stands binding.now) }
    requires care { AreFirst (nodes store.now.parts) care }
    ensures { Bounds care (λ v node. Makes store.now.parts store.now.now (claim formula.now) truth (bound (bound (stands binding.now) name v) other node))
        result }
{
    match formula {
        Formula::Not(inner) => {
            let part = inner.get();
            possible_row(store, paths, binding, name, other, part, !truth, care)
        }
        Formula::And(parts) => {
            let parts = parts.as_slice();
            possible_joined(
                store, paths, binding, name, other, parts, truth, truth, care,
            )
        }
        Formula::Or(parts) => {
            let parts = parts.as_slice();
            possible_joined(
                store, paths, binding, name, other, parts, truth, !truth, care,
            )
        }
        Formula::Every(_, _) => constant(true),
        Formula::Any(_, _) => constant(true),
        Formula::Edge(dim, first, label, second) => {
            let pair = Pair::Edge(*dim, *label);
            possible_pair(
                store, paths, binding, name, other, pair, *first, *second, truth,
            )
        }
        Formula::Above(dim, first, second) => {
            let pair = Pair::Path(*dim);
            possible_pair(
                store, paths, binding, name, other, pair, *first, *second, truth,
            )
        }
        Formula::Left(first, second) => {
            let pair = Pair::Left;
            possible_pair(
                store, paths, binding, name, other, pair, *first, *second, truth,
            )
        }
        Formula::Same(first, second) => {
            let pair = Pair::Same;
            possible_pair(
                store, paths, binding, name, other, pair, *first, *second, truth,
            )
        }
        Formula::Attr(node, dim, attr, value) => {
            if *node == other {
                return constant(true);
            }
            attr_row(
                store, binding, name, *node, *dim, *attr, *value, truth, care,
            )
        }
        Formula::Feat(node, table) => {
            if *node == other {
                return constant(true);
            }
            feat_row(store, binding, name, *node, table, truth, care)
        }
    }
}

/// Of some nodes, at least those for which a name has to stand so that the box makes each of some formulas true, or false, or one or more of
/// them, for some node for which a further name stands. It looks at a formula only where those before it leave something open.
#[cycle(possible)]
#[tactic(auto, using(xdg_problem::specs::declared::formula::Formula::TheViews::the_lemmas, crate::proofs::Bounding::several_steps))]
fn possible_joined(
    store: &Store,
    paths: &Paths,
    binding: &Binding,
    name: u8,
    other: u8,
    formulas: &[Formula],
    truth: bool,
    each: bool,
    care: NodeSet,
) -> NodeSet
    requires paths { ArePaths store.now paths.now }
    requires are_of { EachIsOf store.now.parts (claims_of (map claim formulas.now)) }
    requires nodes { AreNodes store.now.parts (stands binding.now) }
    requires care { AreFirst (nodes store.now.parts) care }
    ensures { Bounds care
        (λ v node. MakesSeveral each store.now.parts store.now.now (claims_of (map claim formulas.now)) truth
        (bound (bound (stands binding.now) name v) other node))
        result }
{
    let mut row = constant(each);
    for formula in formulas {
        let still = still_open(each, care, row);
        if still.len() == 0 {
            continue;
        }
        let here = possible_row(store, paths, binding, name, other, formula, truth, still);
        row = joined(each, row, here);
    }
    row
}

/// The nodes that are possible for a second name, whatever the first one stands for, where the box is to make a formula true, or false.
pub(crate) fn possible_second(
    store: &Store,
    paths: &Paths,
    binding: &Binding,
    name: u8,
    other: u8,
    formula: &Formula,
    truth: bool,
) -> NodeSet
    requires paths { ArePaths store.now paths.now }
    requires is_of { IsOf store.now.parts (claim formula.now) }
    requires nodes { AreNodes store.now.parts (stands binding.now) }
    ensures first { AreFirst (nodes store.now.parts) result }
    ensures bounds { (v node : ℕ) → node < nodes store.now.parts
        → Makes store.now.parts store.now.now (claim formula.now) truth (bound (bound (stands binding.now) name v) other node) → has result node ≡ true }
{
    let all = paths.all;
    if other == name {
        return all;
    }
    all.meet(&possible_row(store, paths, binding, other, name, formula, truth, all))
}
