//! Nodes for free names that let a box make a formula true, or false.

ghost use Rattle.std.specs.Prelude.{◌≡◌, ◌<◌, ◌↔◌, ◌==◌, ◌&&◌, ℕ, IsTrue, not};
ghost use Rattle.xdg_nodeset.specs.Nodes.{without};
ghost use Rattle.xdg_facts.specs.Rises.{has};
ghost use Rattle.xdg_problem.specs.Claims.{IsOf, claim};
ghost use Rattle.xdg_problem.specs.Places.{nodes};
ghost use Rattle.xdg_problem.specs.Truths.{bound, AreNodes, stands};
ghost use Rattle.xdg_rules.specs.Worths.{Makes};
ghost use Rattle.xdg_formula_value.specs.Filling.{ArePaths};
ghost use Rattle.xdg_formula_value.specs.Lost.{AgreeBut, Finds, HasNode, HasNodes};

use crate::paths::Paths;
use crate::possible::{possible_row, possible_second};
use crate::value::{makes, row_of};
use xdg_base::NodeId;
use xdg_graph::node_count;
use xdg_nodeset::NodeSet;
use xdg_problem::{Binding, Formula, bind, node_of};
use xdg_store::Store;

/// A name that no set of names has.
const OUTSIDE: u8 = 255;

/// A set without one of its members.
pub(crate) fn fewer(names: NodeSet, name: u8) -> NodeSet
    requires { name < 128 }
    ensures value { result ≡ without names name }
    ensures members { (n : ℕ) → has result n ≡ (not (n == name) && has names n) }
{
    let mut rest = names;
    rest.remove(NodeId(name));
    rest
}

/// Whether a formula may be made true, or false, for some node for which a name stands, by what doesn't name it.
fn may_be_found(
    store: &Store,
    paths: &Paths,
    binding: &Binding,
    name: u8,
    formula: &Formula,
    truth: bool,
) -> bool
    requires paths { ArePaths store.now paths.now }
    requires is_of { IsOf store.now.parts (claim formula.now) }
    requires nodes { AreNodes store.now.parts (stands binding.now) }
    ensures { (node : ℕ) → Makes store.now.parts store.now.now (claim formula.now) truth (bound (stands binding.now) name node) → IsTrue result }
{
    let row = possible_row(
        store, paths, binding, OUTSIDE, name, formula, truth, paths.all,
    );
    row.contains(node_of(binding, OUTSIDE))
}

/// Whether some node for a name lets the box make a formula true, or false.
fn found_one(
    store: &Store,
    paths: &Paths,
    binding: &Binding,
    name: u8,
    formula: &Formula,
    truth: bool,
) -> bool
    requires paths { ArePaths store.now paths.now }
    requires is_of { IsOf store.now.parts (claim formula.now) }
    requires nodes { AreNodes store.now.parts (stands binding.now) }
    ensures { IsTrue result ↔ HasNode store.now.parts store.now.now (claim formula.now) truth (stands binding.now) name }
{
    if !may_be_found(store, paths, binding, name, formula, truth) {
        return false;
    }
    let row = row_of(store, paths, binding, name, formula, truth, paths.all);
    paths.has_over(node_count(store), false, row)
}

/// Whether some nodes for two names let the box make a formula true, or false. It goes only to nodes that are possible for the first name
/// whatever the second one stands for, and there looks only at those that are possible for the second one, up to the first node at which one is.
fn found_two(
    store: &Store,
    paths: &Paths,
    binding: &Binding,
    name: u8,
    other: u8,
    formula: &Formula,
    truth: bool,
) -> bool
    requires paths { ArePaths store.now paths.now }
    requires is_of { IsOf store.now.parts (claim formula.now) }
    requires nodes { AreNodes store.now.parts (stands binding.now) }
    ensures { IsTrue result ↔ HasNodes store.now.parts store.now.now (claim formula.now) truth (stands binding.now) name other }
{
    let second = possible_second(store, paths, binding, name, other, formula, truth);
    if second.len() == 0 {
        return false;
    }
    let all = paths.all;
    let possible = all.meet(&possible_row(store, paths, binding, name, other, formula, truth, all));
    for node in possible.iter() {
        let here = bind(binding, name, node.0);
        let row = row_of(store, paths, &here, other, formula, truth, second);
        let met = row.meet(&second);
        if paths.has_over(node_count(store), false, met) {
            return true;
        }
    }
    false
}

/// Whether some nodes for free names, and for others those of a binding, let the box make a formula true, or false.
#[cycle(freeing)]
pub(crate) fn found(
    store: &Store,
    paths: &Paths,
    binding: &Binding,
    free: NodeSet,
    formula: &Formula,
    truth: bool,
) -> bool
    requires paths { ArePaths store.now paths.now }
    requires is_of { IsOf store.now.parts (claim formula.now) }
    requires nodes { AreNodes store.now.parts (stands binding.now) }
    ensures { Finds store.now.parts store.now.now (claim formula.now) truth (AgreeBut free (stands binding.now)) result }
{
    match free.first() {
        None => makes(store, paths, binding, formula, truth),
        Some(name) => {
            let rest = fewer(free, name.0);
            let Some(other) = rest.first() else {
                return found_one(store, paths, binding, name.0, formula, truth);
            };
            let last = fewer(rest, other.0);
            if last.len() == 0 {
                return found_two(store, paths, binding, name.0, other.0, formula, truth);
            }
            for node in 0..node_count(store) {
                let here = bind(binding, name.0, node);
                if found(store, paths, &here, rest, formula, truth) {
                    return true;
                }
            }
            false
        }
    }
}
